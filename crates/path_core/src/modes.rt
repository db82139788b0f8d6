//! How an end stands to Multipath TCP.

ghost use Rattle.std.specs.Prelude.{◌≡◌, ◌<◌, ◌≤◌, ◌^◌, IfSome};

use fallback_state::Mode;
use path_store::{InfiniteMapping, covers, fin_place, place_under};
use seq_units::Pos;

/// What an end knows of its side, and of the keys.
#[derive(Clone, Copy)]
pub struct Modes {
    /// The side's mode, as the end was told last.
    pub mode: Mode,
    /// Whether the path is granted nothing, as another one is no backup.
    pub standby: bool,
    /// Whether no other path of the side lives or opens.
    pub sole: bool,
    /// Whether the end may send a DSS: at A once one came, at B once both keys were noted or the third MP_JOIN came.
    pub clear: bool,
    /// The side's own key.
    pub own_key: u64,
    /// The peer's key, once it is known.
    pub peer_key: Option<u64>,
    /// The end's own nonce, which a join shows (RFC 8684, section 3.2).
    pub own_nonce: u32,
    /// The peer's nonce, 0 until it is heard.
    pub peer_nonce: u32,
    /// Whether the peer's SYN asked for the path as a backup.
    pub backup_heard: bool,
    /// Whether the end's third MP_JOIN isn't answered: until then each of its segments carries it.
    pub owes_third: bool,
    /// Whether a Data ACK that covers something was heard on the path.
    pub covered: bool,
    /// Whether the peer's SYN asked for Multipath TCP (RFC 8684, section 3.1).
    pub capable_asked: bool,
    /// Whether the end told its send book that the side fell back to plain TCP (section 3.7): then it hears no option, and
    /// the positions of its subflow are the places of both streams.
    pub identity: bool,
    /// The infinite mapping by which the side sends, since the peer's MP_FAIL came: its acknowledgements and FIN are the
    /// subflow's (section 3.7).
    pub own_infinite: Option<InfiniteMapping>,
    /// The infinite mapping by which the peer sends, since that came behind the end's MP_FAIL: from its position on its bytes have no
    /// other mapping and no checksum, and its FIN is the subflow's (section 3.7).
    pub peer_infinite: Option<InfiniteMapping>,
    /// Whether the peer is to be told by an infinite mapping: the side fell back as this end missed an option on data or on an
    /// acknowledgement, or the peer's MP_FAIL came. Until a segment that has one is acknowledged, each segment with data or FIN
    /// has one.
    pub owes_mapping: bool,
    /// The least position behind a segment that was sent with the infinite mapping.
    pub mapped_to: Option<u64>,
    /// The place that a mapping of the peer begins at: the one whose check failed last, where the side went on. Each
    /// acknowledgement tells it by MP_FAIL, until the peer's infinite mapping came (section 3.7).
    pub failed_mapping: Option<u64>,
    /// How many acknowledgements of data came without a Data ACK since the last Data ACK, up to three.
    pub plain_acks: u64,
}

impl Modes {
    ghost use Rattle.path_core.specs.Modes.{first_modes, sends_plainly, bytes_acknowledged, receives_plainly, fin_place};

    /// The side sends without mappings of pieces: it fell back to plain TCP, or the peer's MP_FAIL came (RFC 8684, section 3.7).
    pub(crate) fn sends_plainly(&self) -> bool
        ensures { result ≡ sends_plainly self.now }
    {
        self.identity || self.own_infinite.is_some()
    }

    /// The peer's byte at this position has no mapping of a piece: the side fell back to plain TCP, or the peer's infinite mapping
    /// covers it.
    pub(crate) fn receives_plainly(&self, position: Pos) -> bool
        ensures { result ≡ receives_plainly self.now position }
    {
        self.identity || covers(self.peer_infinite, position)
    }

    /// The place of the peer's FIN then, at this position of at most 2^62.
    pub(crate) fn fin_place(&self, position: Pos) -> Option<u64>
        requires { position ≤ 2 ^ 62 }
        ensures value { result ≡ fin_place self.now position }
        ensures bound { IfSome result (λ place. place < 2 ^ 62) }
    {
        fin_place(self.identity, self.peer_infinite, position)
    }

    /// What the acknowledgement of a position, at most 2^62, stands for then: so many bytes.
    pub(crate) fn bytes_acknowledged(&self, position: Pos) -> Option<u64>
        requires { position ≤ 2 ^ 62 }
        ensures value { result ≡ bytes_acknowledged self.now position }
        ensures bound { IfSome result (λ next. next < 2 ^ 62) }
    {
        if self.identity {
            return Some(position.saturating_sub(1));
        }
        place_under(self.own_infinite?, position)
    }

    /// Nothing is known yet but the own key and the own nonce.
    pub(crate) fn new(own_key: u64, own_nonce: u32) -> Self
        ensures { result ≡ first_modes own_key own_nonce }
    {
        Modes {
            mode: Mode::Starting,
            standby: false,
            sole: false,
            clear: false,
            own_key,
            peer_key: None,
            own_nonce,
            peer_nonce: 0,
            backup_heard: false,
            owes_third: false,
            covered: false,
            capable_asked: false,
            identity: false,
            own_infinite: None,
            peer_infinite: None,
            owes_mapping: false,
            mapped_to: None,
            failed_mapping: None,
            plain_acks: 0,
        }
    }
}
