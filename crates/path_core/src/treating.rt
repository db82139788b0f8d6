//! The things that a copy's options say, one after the other: each is told to a book, or treated in silence (RFC 8684, section
//! 3.3).

ghost use Rattle.std.specs.Prelude.{◌≡◌, ◌<◌, ◌&&◌, Some, OnOk, IfSome, OnErr};
ghost use Rattle.path_agenda.specs.Items.{IsFair};
ghost use Rattle.actor_desk.specs.Kinds.{CanBeAsked};
ghost use Rattle.path_core.specs.DssIn.{counts, is_clash, mapping_ask};
ghost use Rattle.path_core.specs.Treating.{heard_stands, heard_passed, item_stands, item_passed, item_of, heard_ask, answered_heard, item_ask, answered_item};
ghost use Rattle.path_core.specs.Octets.{octets};
ghost use Rattle.path_core.specs.Replies.{IsAckBounded};
ghost use Rattle.path_core.specs.State.{end_at};

use crate::end::PathEnd;
use crate::mp_capable::keys_ask;
use crate::state::PathState;
use actor_desk::{Ask, LocalStep, Reply};
use control_book::ControlCall;
use fallback_state::{Event, Mode};
use path_agenda::{Heard, KeyPair};
use send_book::SendCall;
use sides::Side;
use std::alloc::AllocError;

impl PathEnd {
    /// A thing that was heard comes to something.
    fn heard_stands(&self, item: Heard) -> bool
        ensures { result ≡ heard_stands item self.now }
    {
        let starting = self.modes.mode == Mode::Starting;
        match item {
            Heard::Dss | Heard::PeerKey { .. } | Heard::Join { .. } => false,
            Heard::DataAck { .. } => self.modes.own_infinite.is_none(),
            Heard::Fail => self.modes.mode.writes_mappings(),
            Heard::Notice { .. } => true,
            Heard::FastClose { .. } => true,
            Heard::Mapping { .. } => self.counts() && (self.is_clash() || starting),
            Heard::DataFin { .. } => self.counts() && starting,
            Heard::InfiniteMapping { .. } => self.counts() && self.modes.mode.reads_mappings(),
            Heard::Keys { .. } => !self.treated.keys_told,
        }
    }

    /// The thing of this number; after a fallback nothing more is heard.
    pub(crate) fn item(&self, index: u8) -> Option<Heard>
        ensures value { result ≡ item_of index self.now }
        ensures fair { IfSome result IsFair }
    {
        if self.modes.identity {
            None
        } else {
            self.treated.item(index)
        }
    }

    /// The thing of this number comes to something.
    pub(crate) fn item_stands(&self, index: u8) -> bool
        ensures { result ≡ item_stands (item_of index self.now) self.now }
    {
        match self.item(index) {
            Some(item) => self.heard_stands(item),
            None => false,
        }
    }

    /// What is passed in silence.
    fn pass_heard(&mut self, side: Side, item: Heard)
        requires { IsFair item }
        ensures { self.new ≡ heard_passed side item self.old }
    {
        match item {
            Heard::Dss => self.pass_dss(side),
            Heard::DataAck { next, .. } => self.hear_data_ack(next),
            Heard::Mapping { .. } => self.pass_mapping(),
            Heard::DataFin { place } => {
                if self.counts() {
                    self.treated.note_data_fin(place);
                }
            }
            Heard::InfiniteMapping { .. }
            | Heard::PeerKey { .. }
            | Heard::Keys { .. }
            | Heard::Join { .. }
            | Heard::Notice { .. }
            | Heard::Fail
            | Heard::FastClose { .. } => {}
        }
    }

    /// The thing of this number is passed in silence.
    pub(crate) fn pass_item(&mut self, side: Side, index: u8)
        ensures { self.new ≡ item_passed side (item_of index self.old) self.old }
    {
        if let Some(item) = self.item(index) {
            self.pass_heard(side, item);
        }
    }
}

impl PathState {
    /// What a thing that was heard asks.
    fn heard_ask(&self, side: Side, item: Heard) -> Ask
        requires { IsFair item }
        ensures value { result ≡ heard_ask octets side item self.now }
        ensures able { CanBeAsked result }
    {
        match item {
            Heard::DataAck { next, window } => {
                let window = u64::from(window);
                Ask::Send(side, SendCall::AckIn { next, window })
            }
            Heard::Mapping { .. } => self.mapping_ask(side),
            Heard::DataFin { .. } => self.fell_ask(side, Event::MappingHeard),
            Heard::InfiniteMapping { .. } => self.fell_ask(side, Event::InfiniteHeard),
            Heard::Keys { own, peer } => keys_ask(side, Some(KeyPair { own, peer })),
            Heard::Dss | Heard::PeerKey { .. } | Heard::Join { .. } => Ask::Local(LocalStep::End),
            Heard::Fail => self.fail_ask(side),
            Heard::Notice { notice } => self.notice_ask(side, notice),
            Heard::FastClose { key } => Ask::Control(side, ControlCall::FastHeard { key }),
        }
    }

    /// What the thing of this number asks.
    pub(crate) fn item_ask(&self, side: Side, index: u8) -> Ask
        ensures value { result ≡
            item_ask octets side (item_of index (end_at side self.now)) self.now }
        ensures able { CanBeAsked result }
    {
        match self.end(side).item(index) {
            Some(item) => self.heard_ask(side, item),
            None => Ask::Local(LocalStep::End),
        }
    }

    /// What the reply to a thing that was heard makes of the path. At an error all is as it was.
    fn answer_heard(&mut self, side: Side, item: Heard, reply: &Reply) -> Result<(), AllocError>
        requires fair { IsFair item }
        requires acks { IsAckBounded reply.now }
        ensures ok { OnOk result (self.new ≡ answered_heard octets side item reply.now self.old) }
        ensures err { OnErr result (self.new ≡ self.old) }
    {
        match item {
            Heard::DataAck { next, .. } => {
                self.answer_ack(side, next, reply);
                Ok(())
            }
            Heard::Mapping { .. } => self.answer_mapping(side, reply),
            Heard::DataFin { place } => {
                self.answer_data_fin(side, place, reply);
                Ok(())
            }
            Heard::InfiniteMapping { place, position } => {
                self.answer_infinite(side, place, position, reply);
                Ok(())
            }
            Heard::Keys { own, peer } => {
                self.answer_keys(side, KeyPair { own, peer }, reply);
                Ok(())
            }
            Heard::Notice { notice } => self.answer_notice(side, notice, reply),
            Heard::FastClose { .. } => {
                self.answer_fast_heard(side, reply);
                Ok(())
            }
            Heard::Fail => {
                self.answer_fail(side, reply);
                Ok(())
            }
            Heard::Dss | Heard::PeerKey { .. } | Heard::Join { .. } => {
                self.done();
                Ok(())
            }
        }
    }

    /// What the reply to the thing of this number makes of the path. At an error all is as it was.
    pub(crate) fn answer_item(
        &mut self,
        side: Side,
        index: u8,
        reply: &Reply,
    ) -> Result<(), AllocError>
        requires { IsAckBounded reply.now }
        ensures ok { OnOk result (self.new ≡
            answered_item octets side (item_of index (end_at side self.old)) reply.now self.old) }
        ensures err { OnErr result (self.new ≡ self.old) }
    {
        match self.end(side).item(index) {
            Some(item) => self.answer_heard(side, item, reply),
            None => {
                self.done();
                Ok(())
            }
        }
    }
}
