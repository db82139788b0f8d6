ghost use Rattle.std.specs.Prelude.{◌≡◌, true, false};

/// How far the two DATA_FINs of a connection have come, as one end of a path knows it.
#[derive(Clone, Copy)]
pub struct CloseState {
    /// The peer's DATA_FIN came.
    pub peer_came: bool,
    /// The own DATA_FIN is acknowledged.
    pub own_acked: bool,
}

impl CloseState {
    ghost use Rattle.data_close.specs.Closing.{may_finish};

    /// Neither.
    pub fn new() -> Self
        ensures { result ≡ record { peer_came = false; own_acked = false } }
    {
        CloseState {
            peer_came: false,
            own_acked: false,
        }
    }

    /// The peer's DATA_FIN came, the first time or again.
    pub fn heard_fin(&mut self)
        ensures { self.new ≡ record self.old { peer_came = true } }
    {
        self.peer_came = true;
    }

    /// The own DATA_FIN is acknowledged.
    pub fn fin_acked(&mut self)
        ensures { self.new ≡ record self.old { own_acked = true } }
    {
        self.own_acked = true;
    }

    /// Whether the path may send its subflow's FIN: both are so. This holds outside plain TCP and infinite mappings,
    /// where the FIN itself ends the stream (RFC 8684, section 3.3.3).
    pub fn may_finish(&self) -> bool
        ensures { result ≡ may_finish self.now }
    {
        self.own_acked && self.peer_came
    }
}
