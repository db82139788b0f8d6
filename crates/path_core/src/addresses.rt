//! Addresses and priority (RFC 8684, sections 3.3.8 and 3.4): what an end has to note to its peer goes out, what the peer notes
//! is told to the side, and an echo is owed for it.

ghost use Rattle.std.specs.Prelude.{◌+◌, ◌≡◌, ◌-◌, ◌<◌, ◌≤◌, ◌++◌, [], ◌∷◌, length, map, OnOk, OnErr};
ghost use Rattle.subflow_tcp.specs.States.{is_dead};
ghost use Rattle.path_agenda.specs.declared.heard.Heard.TheVariants as says;
ghost use Rattle.control_book.specs.Calls.{can_ask};
ghost use Rattle.actor_desk.specs.Kinds.{CanBeAsked};
ghost use Rattle.path_core.specs.Addresses.{is_kept, with_echo, is_note_due, with_priority, address_items, item_removed, notice_call, announce_ask, withdraw_ask, answered_note, notice_ask, answered_notice};
ghost use Rattle.path_core.specs.Octets.{octets};

use crate::end::PathEnd;
use crate::notices::Notices;
use crate::options_in::put;
use crate::said::SegmentKind;
use crate::state::PathState;
use actor_desk::{Ask, Reply};
use control_book::{ControlCall, ControlReply};
use key_material::Address;
use path_agenda::{Heard, Items, OwnNotice, PeerNotice};
use sides::Side;
use std::alloc::AllocError;
use subflow_tcp::Occasion;

/// The side keeps the address, now or since before.
fn is_kept(reply: &Reply) -> bool
    ensures { result ≡ is_kept reply.now }
{
    matches!(
        reply,
        Reply::Control(ControlReply::Echo) | Reply::Control(ControlReply::Known)
    )
}

/// What the peer notes.
pub(crate) fn put_notice(items: &mut Items, notice: PeerNotice)
    requires { length items.old.items < 37 }
    ensures { items.new.items ≡ items.old.items ++ says.Notice notice ∷ [] }
{
    put(items, Heard::Notice { notice });
}

/// An address that is announced, or the echo of an announcement.
pub(crate) fn put_address(
    items: &mut Items,
    echo: bool,
    id: u8,
    address: Address,
    port: Option<u16>,
    hmac: Option<u64>,
)
    requires { length items.old.items + length (address_items echo id address port hmac) ≤ 37 }
    ensures { items.new.items ≡ items.old.items ++ address_items echo id address port hmac }
{
    match (echo, hmac) {
        (true, _) => put_notice(items, PeerNotice::AddEcho { id }),
        (false, Some(hmac)) => put_notice(
            items,
            PeerNotice::AddAddr {
                id,
                address,
                port,
                hmac,
            },
        ),
        (false, None) => {}
    }
}

/// Addresses that are taken back, one for each id.
pub(crate) fn put_removed(items: &mut Items, ids: &[u8])
    requires { length items.old.items + length ids.now ≤ 37 }
    ensures { items.new.items ≡ items.old.items ++ map item_removed ids.now }
{
    for id in ids {
        put_notice(items, PeerNotice::Removed { id: *id });
    }
}

/// What the peer noted on the path of this number; an address without a port has port 0.
fn notice_call(path: u8, notice: PeerNotice) -> ControlCall
    requires { path < 16 }
    ensures value { result ≡ notice_call path notice }
    ensures able { can_ask result }
{
    match notice {
        PeerNotice::AddAddr {
            id,
            address,
            port,
            hmac,
        } => ControlCall::Heard {
            id,
            address,
            port: port.unwrap_or(0),
            hmac,
        },
        PeerNotice::AddEcho { id } => ControlCall::Echoed { id },
        PeerNotice::Removed { id } => ControlCall::Removed { id },
        PeerNotice::Prio { backup } => ControlCall::Backup { path, on: backup },
    }
}

/// The side is told that it announces the address of this id.
pub(crate) fn announce_ask(side: Side, id: u8) -> Ask
    ensures value { result ≡ announce_ask side id }
    ensures able { CanBeAsked result }
{
    Ask::Control(side, ControlCall::Announce { id })
}

/// The side is told that it takes the address of this id back.
pub(crate) fn withdraw_ask(side: Side, id: u8) -> Ask
    ensures value { result ≡ withdraw_ask side id }
    ensures able { CanBeAsked result }
{
    Ask::Control(side, ControlCall::Withdraw { id })
}

impl Notices {
    /// An announcement that the side keeps is to be echoed, with the id, the address and the port of the copy. Any other reply
    /// changes nothing.
    ///
    /// # Errors
    ///
    /// Only where there is no memory, and the notice is to be echoed; all is then as it was.
    pub(crate) fn echo(&mut self, notice: PeerNotice, reply: &Reply) -> Result<(), AllocError>
        ensures ok { OnOk result (self.new ≡
            record self.old { queue = with_echo notice reply.now self.old.queue }) }
        ensures err { OnErr result (self.new ≡ self.old) }
    {
        match notice {
            PeerNotice::AddAddr {
                id,
                address,
                port,
                ..
            } if is_kept(reply) => self.push(OwnNotice::AddEcho { id, address, port }),
            PeerNotice::AddAddr { .. }
            | PeerNotice::AddEcho { .. }
            | PeerNotice::Removed { .. }
            | PeerNotice::Prio { .. } => Ok(()),
        }
    }
}

impl PathEnd {
    /// There is something to be noted, and the end can note it now.
    pub(crate) fn is_note_due(&self) -> bool
        ensures { result ≡ is_note_due self.now }
    {
        self.may_note() && self.notices.first().is_some()
    }

    /// The priority is to be told to the peer, unless the end is dead.
    ///
    /// # Errors
    ///
    /// Only where there is no memory, and the end isn't dead; all is then as it was.
    pub(crate) fn note_priority(&mut self, backup: bool) -> Result<(), AllocError>
        ensures ok { OnOk result (self.new ≡ with_priority backup self.old) }
        ensures err { OnErr result (self.new ≡ self.old) }
    {
        if self.is_dead() {
            return Ok(());
        }
        self.notices.push(OwnNotice::Prio { backup })
    }
}

impl PathState {
    /// The first of what is to be noted is sent, and the duty stays, so that the next one is. At an error all is as it was.
    pub(crate) fn send_note(&mut self, side: Side) -> Result<(), AllocError>
        ensures ok { OnOk result (self.new ≡ answered_note octets side self.old) }
        ensures err { OnErr result (self.new ≡ self.old) }
    {
        self.send(side, SegmentKind::Notice, Occasion::Ack)?;
        self.end_mut(side).notices.drop_first();
        Ok(())
    }

    /// What the peer noted is told to the side.
    pub(crate) fn notice_ask(&self, side: Side, notice: PeerNotice) -> Ask
        ensures value { result ≡ notice_ask side notice self.now }
        ensures able { CanBeAsked result }
    {
        Ask::Control(side, notice_call(self.number(), notice))
    }

    /// What the peer noted was told to the side. At an error all is as it was.
    pub(crate) fn answer_notice(
        &mut self,
        side: Side,
        notice: PeerNotice,
        reply: &Reply,
    ) -> Result<(), AllocError>
        ensures ok { OnOk result (self.new ≡ answered_notice side notice reply.now self.old) }
        ensures err { OnErr result (self.new ≡ self.old) }
    {
        self.end_mut(side).notices.echo(notice, reply)?;
        self.done();
        Ok(())
    }
}
