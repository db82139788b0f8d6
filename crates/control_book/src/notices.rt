//! Small parts of what the control book answers and changes.
ghost use Rattle.std.specs.Prelude.{◌≡◌, if◌then◌else◌, is_some, fold};
ghost use Rattle.control_book.specs.Registry.{lowest_living};
ghost use Rattle.control_book.specs.Control.{no_withdrawals, peer_or_zero, is_path, withdrawals_on, with_withdrawal_due};
ghost use Rattle.control_book.specs.Replies.{is_sure, address_notice};
ghost use Rattle.control_book.specs.Steps.{withdrawn_on, withdrawn};

use crate::call::Notice;
use crate::registry::{PathState, every_path, lives, lowest_living};
use address_manager::IdSet;
use fallback_state::Mode;

/// No id is to be taken back on any path.
#[tactic(auto, unfolding(crate::specs::Control::no_withdrawals))]
pub(crate) fn no_withdrawals() -> [IdSet; 16]
    ensures { result ≡ no_withdrawals }
{
    [IdSet::new(); 16]
}

/// The path that tells a fast close: the lowest living one, where there is the peer's key to tell.
pub(crate) fn carrier(peer: Option<u64>, paths: &[PathState; 16]) -> Option<u8>
    ensures { result ≡ (if is_some peer then lowest_living paths.now else None) }
{
    if peer.is_some() {
        lowest_living(paths)
    } else {
        None
    }
}

pub(crate) fn is_sure(mode: Mode) -> bool
    ensures { result ≡ is_sure mode }
{
    matches!(mode, Mode::Sure)
}

pub(crate) fn is_path(one: Option<u8>, path: u8) -> bool
    ensures { result ≡ is_path one path }
{
    one == Some(path)
}

pub(crate) fn peer_or_zero(peer: Option<u64>) -> u64
    ensures { result ≡ peer_or_zero peer }
{
    peer.unwrap_or(0)
}

/// An announcement goes before an address to be taken back.
pub(crate) fn address_notice(announced: Option<u8>, withdrawn: Option<u8>) -> Notice
    ensures { result ≡ address_notice announced withdrawn }
{
    match (announced, withdrawn) {
        (Some(id), _) => Notice::Announce(id),
        (None, Some(id)) => Notice::Withdraw(id),
        (None, None) => Notice::Nothing,
    }
}

/// The ids that are to be taken back on the path.
pub(crate) fn withdrawals_on(withdrawals: &[IdSet], path: u8) -> IdSet
    ensures { result ≡ withdrawals_on withdrawals.now path }
{
    withdrawals
        .get(path as usize)
        .copied()
        .unwrap_or(IdSet::new())
}

/// The id is to be taken back on the path, or no longer.
pub(crate) fn set_withdrawal(withdrawals: &mut [IdSet], path: u8, id: u8, due: bool)
    ensures { withdrawals.new ≡ with_withdrawal_due id due path withdrawals.old }
{
    let mut ids = withdrawals_on(withdrawals, path);
    ids.set(id, due);
    let path = path as usize;
    if path < withdrawals.len() {
        withdrawals[path] = ids;
    }
}

/// The id is to be taken back on each living path but its own.
pub(crate) fn withdraw_on(withdrawals: &mut [IdSet], paths: &[PathState], id: u8)
    ensures { withdrawals.new ≡ withdrawn id paths.now withdrawals.old }
{
    withdraw_among(withdrawals, paths, id, &every_path());
}

/// The id is to be taken back on each living path among these but its own.
fn withdraw_among(withdrawals: &mut [IdSet], paths: &[PathState], id: u8, among: &[u8])
    ensures { withdrawals.new ≡ fold (withdrawn_on id paths.now) withdrawals.old among.now }
{
    for path in among {
        withdraw_one(withdrawals, paths, id, *path);
    }
}

/// The id is to be taken back on the path, if that lives and isn't the id's own.
#[tactic(auto, unfolding(crate::specs::Steps::withdrawn_on))]
fn withdraw_one(withdrawals: &mut [IdSet], paths: &[PathState], id: u8, path: u8)
    ensures { withdrawals.new ≡ withdrawn_on id paths.now withdrawals.old path }
{
    if lives(paths, path) && path != id {
        set_withdrawal(withdrawals, path, id, true);
    }
}
