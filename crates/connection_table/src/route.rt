//! Where a segment goes that comes to a listener.

/// Where a segment goes that comes to a listener.
#[derive(Clone, Copy)]
pub enum Route {
    /// The segment asks to join the connection with this number.
    To(u8),
    /// The segment asks to join, and no connection has this token.
    Unknown { token: u32 },
    /// The segment doesn't ask to join.
    NotJoin,
}
