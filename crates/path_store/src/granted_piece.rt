//! Bytes that were granted to an end.

use seq_units::Pos;

/// Bytes of the stream that were granted to an end: those from place `from` up to the one before `to`. The first of them has
/// this position, and each other one the next.
#[derive(Clone, Copy)]
pub struct GrantedPiece {
    pub position: Pos,
    pub from: u64,
    pub to: u64,
}
