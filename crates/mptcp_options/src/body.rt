//! What an option has after kind and length: pieces put together, in room for the longest option.

ghost use Rattle.std.specs.Prelude.{◌≡◌, ◌+◌, ◌≤◌, ◌++◌, length};
ghost use Rattle.std.specs.Int.{w16, w64};
ghost use Rattle.std.specs.List.{flat_map};
ghost use Rattle.arrayvec.specs.ArrayVec.{array_vec_len};
ghost use Rattle.mptcp_options.specs.Octets.{flag_if, optional};

use arrayvec::ArrayVec;

/// At most 38 octets: the options of a segment have at most 40 (RFC 9293, section 3.1), and two are kind and length.
pub type Body = ArrayVec<u8, 38>;

/// The flag, or 0.
pub fn flag_if(set: bool, flag: u8) -> u8
    ensures { result ≡ flag_if set flag }
{
    if set { flag } else { 0 }
}

/// The pieces in their order.
pub fn joined(pieces: &[&[u8]]) -> Body
    requires { length (flat_map (λ piece. piece.now) pieces.now) ≤ 38 }
    ensures { result.items ≡ flat_map (λ piece. piece.now) pieces.now }
{
    let mut body = Body::new();
    for piece in pieces {
        put(&mut body, piece);
    }
    body
}

/// The two octets of a number, or none.
pub fn optional_u16(number: Option<u16>) -> Body
    ensures octets { result.items ≡ optional w16 number }
    ensures few { length result.items ≤ 2 }
{
    match number {
        None => Body::new(),
        Some(number) => joined(&[&number.to_be_bytes()]),
    }
}

/// The eight octets of a number, or none.
pub fn optional_u64(number: Option<u64>) -> Body
    ensures octets { result.items ≡ optional w64 number }
    ensures few { length result.items ≤ 8 }
{
    match number {
        None => Body::new(),
        Some(number) => joined(&[&number.to_be_bytes()]),
    }
}

fn put(body: &mut Body, piece: &[u8])
    requires { array_vec_len body.old + length piece.now ≤ 38 }
    ensures { body.new.items ≡ body.old.items ++ piece.now }
{
    body.try_extend_from_slice(piece).unwrap();
}
