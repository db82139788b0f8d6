//! The token by which a segment asks to join.

ghost use Rattle.std.specs.Prelude.{◌≡◌, ◌==◌, find, option_map, option_and_then};
ghost use Rattle.mptcp_options.specs.Meaning.{option_meaning};
ghost use Rattle.segment_wire.specs.Options.{option_octets};
ghost use Rattle.segment_wire.specs.Reading.{segment_of};
ghost use Rattle.connection_table.specs.Routing.{asks_to_open, first_join, is_join, join_token, option_token, segment_token};

use mptcp_options::{JoinForm, KIND, MpOption, Read, read};
use segment_wire::{Addresses, SegmentRef, parse};

// The subtype of MP_JOIN (RFC 8684, section 3.2).
const MP_JOIN: u8 = 1;

/// Whether an option is MP_JOIN, whole or not.
fn is_join(option: &[u8]) -> bool
    ensures { result ≡ is_join option.now }
{
    match option {
        [kind, _, subtype, ..] => *kind == KIND && *subtype >> 4 == MP_JOIN,
        _ => false,
    }
}

/// The first MP_JOIN of a segment, whole or not.
fn first_join<'a>(segment: &SegmentRef<'a>) -> Option<&'a [u8]>
    ensures { option_map (λ option. option.now) result ≡
        first_join (segment_of segment.now).options }
{
    for option in segment.options() {
        if is_join(option) {
            return Some(option);
        }
    }
    None
}

/// The token of an MP_JOIN that a SYN has: 12 octets.
fn option_token(option: &[u8]) -> Option<u32>
    ensures { result ≡ option_token option.now }
{
    match read(option, false) {
        Read::Known(
            MpOption::Join {
                form: JoinForm::Syn { token, .. },
            },
        ) => Some(token),
        _ => None,
    }
}

/// The token by which a segment asks to join, if it does: a SYN without ACK, whose first MP_JOIN has that form.
fn segment_token(segment: &SegmentRef<'_>) -> Option<u32>
    ensures { result ≡ segment_token (segment_of segment.now) }
{
    if !segment.head.syn || segment.head.ack_set {
        return None;
    }
    option_token(first_join(segment)?)
}

/// The token by which octets that went between these addresses ask to join a connection, if they do: that of the first MP_JOIN of a
/// SYN without ACK, where it has 12 octets (RFC 8684, section 3.2). Answers for all octets, hostile ones too, and takes no memory.
pub(crate) fn join_token(octets: &[u8], addresses: &Addresses) -> Option<u32>
    ensures { result ≡ join_token addresses.now octets.now }
{
    match parse(octets, addresses) {
        Ok(segment) => segment_token(&segment),
        Err(_) => None,
    }
}
