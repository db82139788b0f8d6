//! What an end keeps of its side's own stream (RFC 8684, sections 3.3.2 and 3.3.3).

ghost use Rattle.std.specs.Prelude.{◌≡◌, ◌<◌, ◌^◌, ◌&&◌, ◌||◌, false, not, is_some};

use data_close::CloseState;
use path_store::GrantedPieces;
use send_book::Why;
use std::alloc::Global;
use std::marker::Model;

/// What an end keeps of its side's own stream.
#[derive(Drop)]
pub(crate) struct Sending {
    /// How many bytes there are in all, once a refused grant told it.
    pub known_end: Option<u64>,
    /// DATA_FIN was sent by this end.
    pub fin_sent: bool,
    /// The own DATA_FIN is acknowledged, and the peer's came, by what this end heard.
    pub close: CloseState,
    /// The last grant was refused as the peer's window is shut.
    pub shut: bool,
    /// How many bytes of the stream, the DATA_FIN among them, the peer acknowledged to this end: fewer than 2^62.
    heard: u64,
    /// The pieces that were granted to this end and aren't below all that it heard.
    pub granted: GrantedPieces,
    /// One of them, or the DATA_FIN, was acknowledged since the timer was settled last.
    pub news: bool,
}

impl Model for Sending {
    ghost use Rattle.path_core.specs.Sending.{Sending};

    ghost Value = { Sending };

    ghost view = { λ v. record {
      known_end = v.known_end;
      fin_sent = v.fin_sent;
      close = v.close;
      shut = v.shut;
      heard = v.heard;
      granted = v.granted;
      news = v.news;
    } };

    ghost use Rattle.std.specs.Prelude.{◌<◌, ◌^◌};

    ghost invariant = { λ v. v.heard < 2 ^ 62 };
}

impl Sending {
    ghost use Rattle.path_core.specs.Sending.{no_sending};
    ghost use Rattle.path_core.specs.DataFin.{is_news, after_acked, after_refusal, owes_data_fin, is_all_granted};

    /// Nothing was granted, sent or heard. Takes no memory.
    pub(crate) fn new(alloc: Global) -> Self
        ensures { result ≡ no_sending }
    {
        Sending {
            known_end: None,
            fin_sent: false,
            close: CloseState::new(),
            shut: false,
            heard: 0,
            granted: GrantedPieces::new(alloc),
            news: false,
        }
    }

    /// How many bytes of the stream, the DATA_FIN among them, the peer acknowledged to this end.
    pub(crate) fn heard(&self) -> u64
        ensures value { result ≡ self.now.heard }
        ensures bound { result < 2 ^ 62 }
    {
        self.heard
    }

    /// A DATA_FIN is acknowledged by nothing that was heard.
    pub(crate) fn owes_data_fin(&self) -> bool
        ensures { result ≡ owes_data_fin self.now }
    {
        self.fin_sent && !self.close.own_acked
    }

    /// The end is known, and no byte before it waits for its grant.
    pub(crate) fn is_all_granted(&self) -> bool
        ensures { result ≡ is_all_granted self.now.known_end self.now }
    {
        match self.known_end {
            Some(end) => self.granted.granted_to().max(self.heard.min(end)) == end,
            None => false,
        }
    }

    /// The DATA_FIN is to be sent: the end is known, and it was neither sent nor acknowledged.
    pub(crate) fn is_data_fin_due(&self) -> bool
        ensures { result ≡
            (is_some self.now.known_end &&
            (not self.now.fin_sent && not self.now.close.own_acked)) }
    {
        self.known_end.is_some() && !self.fin_sent && !self.close.own_acked
    }

    /// A grant was refused, and perhaps told the end of the stream.
    pub(crate) fn refuse(&mut self, why: Why, known: Option<u64>)
        ensures { self.new ≡ after_refusal why known self.old }
    {
        self.shut = why == Why::WindowShut;
        self.known_end = known.or(self.known_end);
    }

    /// Bytes of the stream are acknowledged up to a place, fewer than 2^62, the DATA_FIN among them or not. Takes no memory.
    pub(crate) fn acknowledge(&mut self, next: u64, fin: bool)
        requires { next < 2 ^ 62 }
        ensures { self.new ≡ after_acked next fin self.old }
    {
        self.news |= self.is_news(next, fin);
        self.heard = self.heard.max(next);
        self.granted.let_go(self.heard);
        if fin {
            self.close.fin_acked();
        }
    }

    /// A place that was granted, or the DATA_FIN, is acknowledged for the first time.
    fn is_news(&self, next: u64, fin: bool) -> bool
        ensures { result ≡ is_news next fin self.now }
    {
        self.granted.has_newly_heard(self.heard, next)
            || fin && self.fin_sent && !self.close.own_acked
    }
}
