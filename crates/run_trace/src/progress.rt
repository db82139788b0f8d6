//! Who is told how far the turns of a log are made.

/// Who is told how far the turns of a log are made.
pub trait Progress {
    /// Tells how many of how many turns are made.
    fn made(&mut self, turns: u64, of: usize);
}
