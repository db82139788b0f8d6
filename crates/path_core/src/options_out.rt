//! The segments that an end sends: their options and their windows (RFC 8684, section 3).

ghost use Rattle.std.specs.Prelude.{◌≡◌, ◌≤◌, Some, None, length, option_map, IfSome};
ghost use Rattle.sides.specs.declared.side.Side.TheVariants.{A};
ghost use Rattle.subflow_send.specs.Records.{record_of};
ghost use Rattle.path_agenda.specs.Words.{first_of};
ghost use Rattle.path_core.specs.OptionsOut.{announcement, notice_option, HasAddress, capable_options, syn_options, key_options, opening_options, ack_options, record_options, broken_options, dss_and, noted_said, carried_said, segment_of, ack_said, record_said, record_or_ack, syn_ack_said, fin_said, own_reset, reset_said};
ghost use Rattle.path_core.specs.declared.said.SegmentKind.TheVariants.{DeadAnswer, Refusal};
ghost use Rattle.path_core.specs.DssOut.{fail_beside, data_fin_mapping};
ghost use Rattle.path_core.specs.Emission.{answer_said, ack_resent, resend_said};
ghost use Rattle.path_core.specs.Said.{options_by, plain_said, said_by, CanBeSaid};

use crate::breaking::MPTCP_SPECIFIC;
use crate::end::PathEnd;
use crate::modes::Modes;
use crate::profile::Profile;
use crate::said::{Said, SaidOptions, SegmentKind, first_and, one_at_most};
use crate::unnumbered::unnumbered;
use capable_handshake::{ack_option, syn_ack_option, syn_option};
use data_close::{fast_close_option, reset_option};
use key_material::{Address, add_addr64};
use path_agenda::OwnNotice;
use path_segments::{PathOption, SaidOption};
use seq_units::Pos;
use sides::Side;
use subflow_tcp::{Outgoing, RecordKind, RecordRef};

impl Modes {
    /// A notice of the end's side; an announcement shows the HMAC of both keys (RFC 8684, section 3.4.1).
    fn notice_option(&self, notice: OwnNotice) -> SaidOption
        ensures { result ≡ notice_option notice self.now }
    {
        match notice {
            OwnNotice::AddAddr { id } => self.announcement(id),
            OwnNotice::AddEcho { id, address, port } => PathOption::AddAddr {
                echo: true,
                id,
                address,
                port,
                hmac: None,
            },
            OwnNotice::Removes { id } => PathOption::Remove { ids: [id] },
            OwnNotice::Prio { backup } => PathOption::Prio { backup },
        }
    }

    /// The announcement of the own address of this id.
    fn announcement(&self, id: u8) -> SaidOption
        ensures { result ≡ announcement id self.now }
    {
        let address = Address::V4([10, 0, id, 2]);
        let hmac = add_addr64(self.own_key, self.peer_key_of(), id, &address, 0);
        PathOption::AddAddr {
            echo: false,
            id,
            address,
            port: None,
            hmac: Some(hmac),
        }
    }
}

/// The address of an echo has 16 octets at most.
fn has_address(notice: OwnNotice)
    ensures { HasAddress notice }
{
    match notice {
        OwnNotice::AddEcho { address, .. } => {
            // For the proof: an address has 4 or 16 octets.
            let _octets = address.octets();
        }
        OwnNotice::AddAddr { .. } | OwnNotice::Removes { .. } | OwnNotice::Prio { .. } => {}
    }
}

/// The address of an echo that may be there has 16 octets at most.
fn may_have_address(notice: Option<OwnNotice>)
    ensures { IfSome notice HasAddress }
{
    if let Some(notice) = notice {
        // For the proof: the address has its octets.
        has_address(notice);
    }
}

impl PathEnd {
    /// On a SYN that opens the connection: A asks for Multipath TCP, and B answers with its key where A asked (RFC 8684,
    /// section 3.1).
    fn capable_option(&self, profile: &Profile, side: Side) -> Option<SaidOption>
        ensures value { options_by result ≡ capable_options profile.now side self.now }
    {
        let checksums = profile.spelling().checksums;
        match side {
            Side::A => unnumbered(syn_option(checksums)),
            Side::B if self.modes.capable_asked && !self.modes.identity => {
                unnumbered(syn_ack_option(checksums, self.modes.own_key))
            }
            Side::B => None,
        }
    }

    /// On a SYN.
    fn syn_option(&self, profile: &Profile, side: Side) -> Option<SaidOption>
        ensures value { options_by result ≡ syn_options profile.now side self.now }
    {
        if profile.is_joined() {
            self.modes.join_option(profile, side)
        } else {
            self.capable_option(profile, side)
        }
    }

    /// Before A may send a DSS it shows both keys; B says nothing before it has them.
    fn key_option(&self, profile: &Profile, side: Side) -> Option<SaidOption>
        ensures value { options_by result ≡
            key_options profile.now side self.now.modes.peer_key self.now }
    {
        match (side, self.modes.peer_key) {
            (Side::A, Some(receiver)) => {
                let checksums = profile.spelling().checksums;
                unnumbered(ack_option(checksums, self.modes.own_key, receiver))
            }
            _ => None,
        }
    }

    /// Before the end may send a DSS: the third MP_JOIN, as long as it is owed, or the keys.
    fn opening_option(&self, profile: &Profile, side: Side) -> Option<SaidOption>
        ensures value { options_by result ≡ opening_options profile.now side self.now }
    {
        if self.modes.owes_third {
            self.modes.third_option()
        } else {
            self.key_option(profile, side)
        }
    }

    /// On an acknowledgement, perhaps with the DATA_FIN; none after a fallback.
    fn ack_options(&self, profile: &Profile, side: Side, fin: Option<u64>) -> SaidOptions
        ensures { result.items ≡ ack_options profile.now side fin self.now }
    {
        if self.modes.identity {
            return SaidOptions::new();
        }
        if !self.modes.clear {
            return one_at_most(self.opening_option(profile, side));
        }
        let dss = PathOption::Dss {
            next: Some(self.receiving.next()),
            mapping: profile.data_fin_mapping(side, fin),
        };
        first_and(dss, self.modes.fail_beside(fin))
    }

    /// On a record.
    fn record_option(
        &self,
        profile: &Profile,
        side: Side,
        lent: &RecordRef<'_>,
    ) -> Option<SaidOption>
        ensures value { options_by result ≡
            record_options lent.now.kind profile.now side (record_of lent.now) self.now }
    {
        match lent.kind {
            RecordKind::Syn => self.syn_option(profile, side),
            RecordKind::Data => self.piece_option(profile, side, lent),
            RecordKind::Fin => self.fin_option(lent.pos),
        }
    }

    /// A segment with the window that the book told last, and on a SYN with the maximum segment size.
    fn segment_of<'a>(
        &'a self,
        profile: &Profile,
        outgoing: Outgoing,
        options: SaidOptions,
        payload: &'a [u8],
    ) -> Said<'a>
        ensures { plain_said result ≡
            segment_of profile.now outgoing options.items payload.now self.now }
    {
        Said {
            outgoing,
            window: self.receiving.window(),
            mss: outgoing.syn.then_some(profile.mss()),
            options,
            payload,
        }
    }

    /// The acknowledgement at this position, perhaps with the DATA_FIN.
    fn ack_said(&self, profile: &Profile, side: Side, position: Pos, fin: Option<u64>) -> Said<'_>
        ensures { plain_said result ≡ ack_said profile.now side position fin self.now }
    {
        let options = self.ack_options(profile, side, fin);
        self.segment_of(profile, self.tcp.ack_at(position), options, &[])
    }

    /// A record, for the first time or again.
    fn record_said<'a>(&'a self, profile: &Profile, side: Side, lent: &RecordRef<'a>) -> Said<'a>
        requires { length lent.now.piece.now ≤ 65475 }
        ensures { plain_said result ≡ record_said profile.now side (record_of lent.now) self.now }
    {
        let options = one_at_most(self.record_option(profile, side, lent));
        let outgoing = self.tcp.record_segment(lent);
        self.segment_of(profile, outgoing, options, lent.piece)
    }

    /// A record, or else an acknowledgement.
    fn record_or_ack<'a>(
        &'a self,
        profile: &Profile,
        side: Side,
        lent: Option<RecordRef<'a>>,
    ) -> Said<'a>
        requires { IfSome lent (λ lent. length lent.piece.now ≤ 65475) }
        ensures { plain_said result ≡
            record_or_ack profile.now side (option_map record_of lent.entry) self.now }
    {
        match lent {
            Some(lent) => self.record_said(profile, side, &lent),
            None => self.ack_said(profile, side, self.tcp.nxt(), None),
        }
    }

    fn syn_ack_said(&self, profile: &Profile, side: Side) -> Said<'_>
        ensures { plain_said result ≡ syn_ack_said profile.now side self.now }
    {
        let options = one_at_most(self.syn_option(profile, side));
        self.segment_of(profile, self.tcp.syn_ack_segment(), options, &[])
    }

    /// The FIN, also before there is a record of it.
    fn fin_said(&self, profile: &Profile) -> Said<'_>
        ensures { plain_said result ≡ fin_said profile.now self.now }
    {
        let outgoing = self.tcp.fin_segment();
        let options = one_at_most(self.fin_option(outgoing.position));
        self.segment_of(profile, outgoing, options, &[])
    }

    /// The reset of an end: at SND.NXT (RFC 9293, section 3.10.5), which is 0 as long as its SYN isn't out.
    fn own_reset(&self) -> Outgoing
        ensures { result ≡ own_reset self.now }
    {
        let position = if self.is_syn_due() { 0 } else { self.tcp.nxt() };
        Outgoing {
            position,
            ..self.tcp.reset_segment()
        }
    }

    /// The reset, perhaps with a reason; after a fallback no option is sent.
    fn reset_said(&self, profile: &Profile, reason: Option<u8>) -> Said<'_>
        ensures { plain_said result ≡ reset_said profile.now reason self.now }
    {
        let options = if self.modes.identity {
            SaidOptions::new()
        } else {
            broken_options(self.treated.failed_mapping, reason)
        };
        self.segment_of(profile, self.own_reset(), options, &[])
    }

    /// The acknowledgement that says this option behind its DSS.
    fn dss_and(&self, profile: &Profile, option: Option<SaidOption>) -> Said<'_>
        ensures { plain_said result ≡ dss_and profile.now (options_by option) self.now }
    {
        let dss = PathOption::Dss {
            next: Some(self.receiving.next()),
            mapping: None,
        };
        let outgoing = self.tcp.ack_at(self.tcp.nxt());
        self.segment_of(profile, outgoing, first_and(dss, option), &[])
    }

    /// The acknowledgement with the first of what is to be noted; without one an acknowledgement.
    fn noted_said(&self, profile: &Profile, side: Side) -> Said<'_>
        ensures { plain_said result ≡
            noted_said profile.now side (first_of self.now.notices.queue) self.now }
    {
        match self.notices.first() {
            Some(notice) => self.dss_and(profile, Some(self.modes.notice_option(notice))),
            None => self.ack_said(profile, side, self.tcp.nxt(), None),
        }
    }

    /// The acknowledgement with MP_FASTCLOSE, as the end carries it; without a key an acknowledgement.
    fn carried_said(&self, profile: &Profile, side: Side) -> Said<'_>
        ensures { plain_said result ≡
            carried_said profile.now side self.now.notices.carrier self.now }
    {
        match self.notices.carrier {
            Some(key) => self.dss_and(profile, unnumbered(fast_close_option(key))),
            None => self.ack_said(profile, side, self.tcp.nxt(), None),
        }
    }

    /// The answer to a segment that is passed over.
    fn answer_said(&self, profile: &Profile, side: Side) -> Said<'_>
        ensures { plain_said result ≡ answer_said profile.now side self.now }
    {
        if self.tcp.owes_syn_ack() {
            self.syn_ack_said(profile, side)
        } else {
            self.ack_said(profile, side, self.tcp.nxt(), None)
        }
    }

    /// The reset that answers a copy at a dead end.
    fn dead_answer_said(&self, profile: &Profile) -> Said<'_>
        ensures { plain_said result ≡ said_by DeadAnswer profile.now A self.now }
    {
        let outgoing = match self.treated.answer {
            Some(outgoing) => outgoing,
            None => self.tcp.reset_segment(),
        };
        self.segment_of(profile, outgoing, SaidOptions::new(), &[])
    }

    /// The reset that refuses a path which joins: an error specific to Multipath TCP (RFC 8684, section 3.6).
    fn refusal_said(&self, profile: &Profile) -> Said<'_>
        ensures { plain_said result ≡ said_by Refusal profile.now A self.now }
    {
        let outgoing = match self.treated.answer {
            Some(outgoing) => outgoing,
            None => self.tcp.reset_segment(),
        };
        let options = one_at_most(unnumbered(reset_option(MPTCP_SPECIFIC)));
        self.segment_of(profile, outgoing, options, &[])
    }

    /// What an expiry sends again where no record is left: the third MP_JOIN, or else MP_FASTCLOSE, or else the DATA_FIN, or else
    /// what a peer that is there answers.
    fn ack_resent(&self, profile: &Profile, side: Side) -> Said<'_>
        ensures { plain_said result ≡ ack_resent profile.now side self.now }
    {
        if self.modes.owes_third {
            return self.ack_said(profile, side, self.tcp.nxt(), None);
        }
        if self.notices.fast_closed {
            return self.carried_said(profile, side);
        }
        if self.is_data_fin_owed() {
            return self.ack_said(profile, side, self.tcp.nxt(), self.sending.known_end);
        }
        let probe = self.tcp.una().saturating_sub(1);
        self.ack_said(profile, side, probe, None)
    }

    /// What an expiry sends again: the first record, or else an acknowledgement.
    fn resend_said(&self, profile: &Profile, side: Side) -> Said<'_>
        ensures { plain_said result ≡ resend_said profile.now side self.now }
    {
        if self.tcp.has_records() {
            self.record_or_ack(profile, side, self.tcp.first_record())
        } else {
            self.ack_resent(profile, side)
        }
    }

    /// The segment of this kind.
    fn said_by(&self, profile: &Profile, side: Side, kind: SegmentKind) -> Said<'_>
        ensures { plain_said result ≡ said_by kind profile.now side self.now }
    {
        match kind {
            SegmentKind::Ack => self.ack_said(profile, side, self.tcp.nxt(), None),
            SegmentKind::DataFin => {
                self.ack_said(profile, side, self.tcp.nxt(), self.sending.known_end)
            }
            SegmentKind::Fin => self.fin_said(profile),
            SegmentKind::Unsent => self.record_or_ack(profile, side, self.tcp.first_unsent()),
            SegmentKind::First => self.record_or_ack(profile, side, self.tcp.first_record()),
            SegmentKind::SynAck => self.syn_ack_said(profile, side),
            SegmentKind::Answer => self.answer_said(profile, side),
            SegmentKind::DeadAnswer => self.dead_answer_said(profile),
            SegmentKind::Refusal => self.refusal_said(profile),
            SegmentKind::Resend => self.resend_said(profile, side),
            SegmentKind::Reset { reason } => self.reset_said(profile, reason),
            SegmentKind::Notice => self.noted_said(profile, side),
            SegmentKind::FastClose => self.carried_said(profile, side),
        }
    }

    /// The segment of this kind, which can be said.
    #[tactic(auto, using(crate::proofs::Sayable::can_be_said))]
    pub(crate) fn said(&self, profile: &Profile, side: Side, kind: SegmentKind) -> Said<'_>
        ensures value { plain_said result ≡ said_by kind profile.now side self.now }
        ensures can { CanBeSaid profile.now.spelling side (plain_said result) }
    {
        // For the proof: the path is 15 at most, and the window 2^20.
        let _path = profile.spelling();
        let _window = self.receiving.window();
        may_have_address(self.notices.first());
        let (_unsent, _first) = (self.tcp.first_unsent(), self.tcp.first_record());
        self.said_by(profile, side, kind)
    }
}

/// Why the path is reset, where there is a reason: MP_FAIL stands before it where a failed check broke the path (RFC 8684, sections
/// 3.6 and 3.7).
fn broken_options(failed: Option<u64>, reason: Option<u8>) -> SaidOptions
    ensures { result.items ≡ broken_options failed reason }
{
    let Some(reason) = reason else {
        return SaidOptions::new();
    };
    let reset = unnumbered(reset_option(reason));
    match failed {
        Some(place) => first_and(PathOption::Fail { place }, reset),
        None => one_at_most(reset),
    }
}
