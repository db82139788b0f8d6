//! The things that a copy says, in their order.

ghost use Rattle.std.specs.Prelude.{◌≡◌, ◌∷◌};
ghost use Rattle.std.specs.List.{list_any};
ghost use Rattle.path_agenda.specs.declared.heard.Heard.TheVariants as says;
ghost use Rattle.path_agenda.specs.Items.{is_dss, place_in_first, wants_ack, key_in, key_heard, pair_in, keys_heard, is_of_step, join_in, join_heard};

use crate::heard::{Heard, JoinStep};
use crate::keys::KeyPair;
use arrayvec::ArrayVec;
use mptcp_options::JoinForm;

/// The things that a copy says. There are at most 37 in forty octets of options: those of one REMOVE_ADDR, each id being one.
pub type Items = ArrayVec<Heard, 37>;

/// Whether a thing says that a DSS came.
fn is_dss(item: Heard) -> bool
    ensures { result ≡ is_dss item }
{
    matches!(item, Heard::Dss)
}

/// The place that the Data ACK of the first DSS names, where it has one: a Data ACK stands right behind its DSS.
pub fn place_in_first(items: &[Heard]) -> Option<u64>
    ensures { result ≡ place_in_first items.now }
{
    for index in 0..items.len() {
        if is_dss(items[index]) {
            return place_in(&items[index + 1..]);
        }
    }
    None
}

/// The place of a Data ACK that stands first.
fn place_in(items: &[Heard]) -> Option<u64>
    ensures { result ≡ place_in_first (says.Dss ∷ items.now) }
{
    match items {
        [Heard::DataAck { next, .. }, ..] => Some(*next),
        _ => None,
    }
}

/// What wants an acknowledgement though it occupies no position.
fn wants_ack(item: Heard) -> bool
    ensures { result ≡ wants_ack item }
{
    matches!(
        item,
        Heard::DataFin { .. }
            | Heard::Mapping { fin: true }
            | Heard::Keys { .. }
            | Heard::Join {
                form: JoinForm::Third { .. }
            }
    )
}

/// Whether one of these things wants an acknowledgement though it occupies no position: a DATA_FIN, alone or behind bytes, both
/// keys, or the MP_JOIN of the third segment of a join.
pub fn one_wants_ack(items: &[Heard]) -> bool
    ensures { result ≡ list_any wants_ack items.now }
{
    items.iter().any(|item| wants_ack(*item))
}

/// The key that a thing tells alone.
fn key_in(item: Heard) -> Option<u64>
    ensures { result ≡ key_in item }
{
    match item {
        Heard::PeerKey { key } => Some(key),
        _ => None,
    }
}

/// The two keys that a thing tells.
fn pair_in(item: Heard) -> Option<KeyPair>
    ensures { result ≡ pair_in item }
{
    match item {
        Heard::Keys { own, peer } => Some(KeyPair { own, peer }),
        _ => None,
    }
}

/// The first key that one of these things tells alone.
pub fn key_heard(items: &[Heard]) -> Option<u64>
    ensures { result ≡ key_heard items.now }
{
    for item in items {
        if let Some(key) = key_in(*item) {
            return Some(key);
        }
    }
    None
}

/// The first two keys that one of these things tells.
pub fn keys_heard(items: &[Heard]) -> Option<KeyPair>
    ensures { result ≡ keys_heard items.now }
{
    for item in items {
        if let Some(keys) = pair_in(*item) {
            return Some(keys);
        }
    }
    None
}

/// Whether an MP_JOIN has the form of that segment of the handshake.
fn is_of_step(step: JoinStep, form: JoinForm) -> bool
    ensures { result ≡ is_of_step step form }
{
    matches!(
        (step, form),
        (JoinStep::Syn, JoinForm::Syn { .. })
            | (JoinStep::Answer, JoinForm::Answer { .. })
            | (JoinStep::Third, JoinForm::Third { .. })
    )
}

/// The MP_JOIN of that form that a thing is.
fn join_in(step: JoinStep, item: Heard) -> Option<JoinForm>
    ensures { result ≡ join_in step item }
{
    match item {
        Heard::Join { form } if is_of_step(step, form) => Some(form),
        _ => None,
    }
}

/// The first MP_JOIN among these things that has the form of that segment of the handshake (RFC 8684, section 3.2).
pub fn join_heard(step: JoinStep, items: &[Heard]) -> Option<JoinForm>
    ensures { result ≡ join_heard step items.now }
{
    for item in items {
        if let Some(form) = join_in(step, *item) {
            return Some(form);
        }
    }
    None
}
