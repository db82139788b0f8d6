//! What an application still has to do in a turn.

/// A duty of an application.
#[derive(Clone, Copy, Default)]
pub enum AppDuty {
    /// Ends the connection at once: its control book takes a fast close (RFC 8684, section 3.5).
    FastClose,
    /// Then its send book is aborted.
    AbortSend,
    /// Then its reassembly book is.
    AbortReceive,
    /// Writes the next bytes of its file.
    Write,
    /// Writes no more, once its file is written.
    Close,
    /// Reads what has come.
    Read,
    /// Ends the turn.
    #[default]
    End,
}
