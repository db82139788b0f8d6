/// Where a connection's output goes.
#[derive(Clone, Copy, Debug)]
pub enum Port {
    /// The bytes that A's reader reads, which B sent.
    ReadByA,
    /// The bytes that B's reader reads, which A sent.
    ReadByB,
    /// The log of the run.
    Log,
}
