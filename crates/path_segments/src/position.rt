/// What a sequence number of a header means (RFC 9293, section 3.4).
#[derive(Clone, Copy, Debug)]
pub enum HeardPosition {
    /// A position of the subflow, counted from its SYN.
    At(u64),
    /// No position: one before the SYN is nearest. The number itself.
    Nowhere(u32),
}
