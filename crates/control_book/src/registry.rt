//! The paths of a side: which of them live, which are to be told what.
ghost use Rattle.std.specs.Prelude.{◌≡◌, ◌+◌, ◌<◌, ◌≤◌, ◌∷◌, [], ◌++◌, length, IfSome, IfOk, slice_set};
ghost use Rattle.std.specs.List.{list_any, filter_map};
ghost use Rattle.control_book.specs.Registry.{every_path, idle, is_living, is_standing, state_of, lives, stands, stands_beside, sole, lowest_living, serves_beside, standby, told_row, rows_with, with_phase, with_row, with_removed, opening_paths};

use address_manager::AddressManager;
use key_material::Address;
use linked_increase::{Row, Rows};
use std::alloc::{AllocError, Global};

/// How far a path is.
#[derive(Clone, Copy)]
pub enum Phase {
    /// The path neither lives nor opens.
    Idle,
    /// The path opens.
    Opening,
    /// The path lives.
    Living,
}

/// What a side keeps of one of its paths.
#[derive(Clone, Copy)]
pub struct PathState {
    /// How far it is.
    pub phase: Phase,
    /// Its address was removed.
    pub removed: bool,
    /// What it told last of its window and round-trip time.
    pub row: Option<Row>,
}

/// A path of which nothing happened.
const IDLE: PathState = PathState {
    phase: Phase::Idle,
    removed: false,
    row: None,
};

/// The numbers of the paths.
#[tactic(auto, unfolding(crate::specs::Registry::every_path))]
pub(crate) fn every_path() -> [u8; 16]
    ensures numbers { result ≡ every_path }
    ensures few { length result ≤ 16 }
{
    [0, 1, 2, 3, 4, 5, 6, 7, 8, 9, 10, 11, 12, 13, 14, 15]
}

/// The paths of a side whose connection opens: path 0 opens, and no other lives or opens.
#[tactic(auto, unfolding(crate::specs::Registry::opening_paths))]
pub(crate) fn opening_paths() -> [PathState; 16]
    ensures { result ≡ opening_paths }
{
    let first = PathState {
        phase: Phase::Opening,
        ..IDLE
    };
    [
        first, IDLE, IDLE, IDLE, IDLE, IDLE, IDLE, IDLE, IDLE, IDLE, IDLE, IDLE, IDLE, IDLE, IDLE,
        IDLE,
    ]
}

/// What is kept of the path.
pub(crate) fn state_of(paths: &[PathState], path: u8) -> PathState
    ensures { result ≡ state_of paths.now path }
{
    paths.get(path as usize).copied().unwrap_or(IDLE)
}

/// Whether the path lives.
pub(crate) fn lives(paths: &[PathState], path: u8) -> bool
    ensures { result ≡ lives paths.now path }
{
    matches!(state_of(paths, path).phase, Phase::Living)
}

/// Whether the path lives or opens.
pub(crate) fn stands(paths: &[PathState], path: u8) -> bool
    ensures { result ≡ stands paths.now path }
{
    !matches!(state_of(paths, path).phase, Phase::Idle)
}

/// Whether no other path lives or opens.
pub(crate) fn sole(paths: &[PathState], path: u8) -> bool
    ensures { result ≡ sole paths.now path }
{
    !any_stands(paths, path, &every_path())
}

/// Whether one of these paths, which isn't this one, lives or opens.
fn any_stands(paths: &[PathState], path: u8, among: &[u8]) -> bool
    ensures { result ≡ list_any (stands_beside paths.now path) among.now }
{
    among.iter().any(|other| stands_beside(paths, path, *other))
}

/// Whether the other path, which isn't this one, lives or opens.
#[tactic(auto, unfolding(crate::specs::Registry::stands_beside))]
fn stands_beside(paths: &[PathState], path: u8, other: u8) -> bool
    ensures { result ≡ stands_beside paths.now path other }
{
    other != path && stands(paths, other)
}

/// The lowest path that lives.
pub(crate) fn lowest_living(paths: &[PathState]) -> Option<u8>
    requires { length paths.now ≤ 16 }
    ensures { result ≡ lowest_living paths.now }
{
    first_living(paths).map(|path| path as u8)
}

/// The place of the first path that lives.
fn first_living(paths: &[PathState]) -> Option<usize>
    requires { length paths.now ≤ 16 }
    ensures value { result ≡ lowest_living paths.now }
    ensures bound { IfSome result (λ path. path < 16) }
{
    paths
        .iter()
        .position(|state| matches!(state.phase, Phase::Living))
}

/// Whether the path is a backup, and another living one isn't.
pub(crate) fn standby(paths: &[PathState], addresses: &AddressManager<Address>, path: u8) -> bool
    ensures { result ≡ standby paths.now addresses.now.backups path }
{
    addresses.is_backup(path) && any_serves(paths, addresses, path, &every_path())
}

/// Whether one of these paths, which isn't this one, lives and is no backup.
fn any_serves(
    paths: &[PathState],
    addresses: &AddressManager<Address>,
    path: u8,
    among: &[u8],
) -> bool
    ensures { result ≡ list_any (serves_beside paths.now addresses.now.backups path) among.now }
{
    among
        .iter()
        .any(|other| serves_beside(paths, addresses, path, *other))
}

/// Whether the other path, which isn't this one, lives and is no backup.
#[tactic(auto, unfolding(crate::specs::Registry::serves_beside))]
fn serves_beside(
    paths: &[PathState],
    addresses: &AddressManager<Address>,
    path: u8,
    other: u8,
) -> bool
    ensures { result ≡ serves_beside paths.now addresses.now.backups path other }
{
    other != path && lives(paths, other) && !addresses.is_backup(other)
}

/// The row of a path that is told beside one that just came: that row itself, and the one kept of each other living path.
#[tactic(auto, unfolding(crate::specs::Registry::told_row))]
fn told_row(paths: &[PathState], came: Row, path: u8) -> Option<Row>
    ensures { result ≡ told_row paths.now came path }
{
    if path == came.path {
        Some(came)
    } else if lives(paths, path) {
        state_of(paths, path).row
    } else {
        None
    }
}

/// The rows of all living paths, and the one that just came.
pub(crate) fn rows_with(alloc: Global, paths: &[PathState], came: Row) -> Result<Rows, AllocError>
    ensures { IfOk result (λ rows. rows ≡ rows_with paths.now came) }
{
    rows_among(alloc, paths, came, &every_path())
}

/// The rows of the living paths among these, and the one that just came.
fn rows_among(
    alloc: Global,
    paths: &[PathState],
    came: Row,
    among: &[u8],
) -> Result<Rows, AllocError>
    requires { length among.now ≤ 16 }
    ensures { IfOk result (λ rows. rows ≡ filter_map (told_row paths.now came) among.now) }
{
    let mut rows = Rows::new(alloc);
    for path in among {
        if let Some(row) = told_row(paths, came, *path) {
            rows.push(row)?;
        }
    }
    Ok(rows)
}

/// Puts the path into another phase.
pub(crate) fn set_phase(paths: &mut [PathState], path: u8, phase: Phase)
    ensures { paths.new ≡ with_phase path phase paths.old }
{
    let state = state_of(paths, path);
    write(paths, path, PathState { phase, ..state });
}

/// Keeps a row of the path.
pub(crate) fn set_row(paths: &mut [PathState], path: u8, row: Row)
    ensures { paths.new ≡ with_row path row paths.old }
{
    let state = state_of(paths, path);
    write(
        paths,
        path,
        PathState {
            row: Some(row),
            ..state
        },
    );
}

/// Notes that the address of the path was removed, where there is such a path.
pub(crate) fn set_removed(paths: &mut [PathState], path: u8)
    ensures { paths.new ≡ with_removed path paths.old }
{
    let state = state_of(paths, path);
    write(
        paths,
        path,
        PathState {
            removed: true,
            ..state
        },
    );
}

/// Writes what is kept of a path, where there is such a path.
fn write(paths: &mut [PathState], path: u8, state: PathState)
    ensures { paths.new ≡ slice_set paths.old path state }
{
    let path = path as usize;
    if path < paths.len() {
        paths[path] = state;
    }
}
