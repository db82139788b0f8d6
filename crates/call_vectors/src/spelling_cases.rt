//! `spelled NUMBERS SIDE POSITION ACK BITS WINDOW MSS PAYLOAD OPTION ..`: the octets of a segment of this side, or `unsayable`.
//! NUMBERS are `PATH CHECKSUMS SHORT INITIAL_A IDSN_A INITIAL_B IDSN_B`. ACK and MSS are `-` where there is none, and BITS
//! letters of `FSR`, or `-`. An option is a name and its fields with `:` between them: `capable`,
//! `join-syn:BACKUP:ID:TOKEN:NONCE`, `join-answer:BACKUP:ID:HMAC:NONCE`, `join-third:OCTETS`, `dss:NEXT:PLACE:POSITION:LENGTH`,
//! `add:ID:OCTETS:HMAC`, `fail:PLACE`, `reset:REASON`.
//!
//! `heard NUMBERS SIDE EDGE UNACKNOWLEDGED TOLD PLACE OCTETS`: what octets of this side say beside what is expected.

ghost use Rattle.std.specs.Prelude.{◌<◌, ◌≤◌, ◌^◌};

use case_fields::Case;
use key_material::Address;
use mptcp_options::{CapableKeys, JoinForm};
use path_segments::{
    EndNumbers, Expected, HeardSegment, PathMapping, PathOption, PathSegment, SaidOption,
    SaidSegment, Spelling, can_say, parse_segment, write,
};
use seq_units::{POSITION_LIMIT, Seq32, Seq64};
use sides::Side;

fn numbers_of(case: &mut Case) -> EndNumbers {
    EndNumbers {
        initial: Seq32(case.number()),
        idsn: Seq64(case.number()),
    }
}

fn spelling_of(case: &mut Case) -> Spelling {
    let path = case.number();
    let (checksums, short) = (case.truth(), case.truth());
    Spelling {
        path,
        a: numbers_of(case),
        b: numbers_of(case),
        checksums,
        short,
    }
}

/// The side of the next field.
pub fn side_of(case: &mut Case) -> Side {
    case.one_of(&[("a", Side::A), ("b", Side::B)], Side::A)
}

pub fn spelled(case: &mut Case) {
    let spelling = spelling_of(case);
    let from = side_of(case);
    let (position, acknowledged) = (case.number(), case.optional());
    let (bits, window, mss) = (case.word(), case.number(), case.optional());
    let payload = case.octets();
    let Some(options) = options_of(case) else {
        return case.fail();
    };
    let segment = PathSegment {
        position,
        acknowledged,
        syn: bits.contains('S'),
        fin: bits.contains('F'),
        rst: bits.contains('R'),
        window,
        mss,
        options: options.as_slice(),
        payload: payload.as_slice(),
    };
    put_spelled(case, &spelling, from, &segment);
}

/// Puts the octets of a segment.
fn put_spelled(case: &mut Case, spelling: &Spelling, from: Side, segment: &SaidSegment<'_>) {
    if !can_say(spelling, from, segment) {
        return case.put("unsayable");
    }
    match write(case.alloc, spelling, from, segment) {
        Ok(octets) => case.put_digits(octets.as_slice()),
        Err(_) => case.fail(),
    }
}

/// The options behind the payload; None where there is no memory.
fn options_of(case: &mut Case) -> Option<Vec<SaidOption>> {
    let mut options = Vec::new(case.alloc);
    for word in case.rest().split(' ') {
        case.read(word, ":");
        if !word.is_empty() && options.push(option_of(case)).is_err() {
            return None;
        }
    }
    Some(options)
}

fn option_of(case: &mut Case) -> SaidOption {
    match case.word() {
        "capable" => PathOption::Capable {
            flag_a: false,
            flag_c: false,
            keys: CapableKeys::NoKey,
        },
        "dss" => dss_of(case),
        "add" => PathOption::AddAddr {
            echo: false,
            id: case.number(),
            address: Address::V4(case.four()),
            port: None,
            hmac: Some(case.number()),
        },
        "fail" => PathOption::Fail {
            place: case.number(),
        },
        "reset" => PathOption::Reset {
            transient: false,
            reason: case.number(),
        },
        name => PathOption::Join {
            form: form_of(case, name),
        },
    }
}

fn dss_of(case: &mut Case) -> SaidOption {
    let next = case.number();
    let mapping = PathMapping::Bytes {
        place: case.number(),
        position: case.number(),
        length: case.number(),
        fin: false,
        checksum: None,
    };
    PathOption::Dss {
        next: Some(next),
        mapping: Some(mapping),
    }
}

fn form_of(case: &mut Case, name: &str) -> JoinForm {
    match name {
        "join-syn" => JoinForm::Syn {
            backup: case.truth(),
            id: case.number(),
            token: case.number(),
            nonce: case.number(),
        },
        "join-answer" => JoinForm::Answer {
            backup: case.truth(),
            id: case.number(),
            hmac: case.number(),
            nonce: case.number(),
        },
        _ => third_of(case),
    }
}

/// The form of `join-third`.
fn third_of(case: &mut Case) -> JoinForm {
    match case.octets().first_chunk() {
        Some(hmac) => JoinForm::Third { hmac: *hmac },
        None => {
            case.refuse();
            JoinForm::Third { hmac: [0; 20] }
        }
    }
}

pub fn heard(case: &mut Case) {
    let spelling = spelling_of(case);
    let from = side_of(case);
    let expected = Expected {
        edge: case.number(),
        unacknowledged: case.number(),
        told: case.number(),
        place: case.number(),
    };
    let octets = case.octets();
    put_heard(case, &spelling, from, &expected, octets.as_slice());
}

/// What these octets say.
fn put_heard(case: &mut Case, spelling: &Spelling, from: Side, expected: &Expected, octets: &[u8]) {
    if expected.edge >= POSITION_LIMIT || expected.unacknowledged >= POSITION_LIMIT {
        return case.refuse();
    }
    if expected.told >= POSITION_LIMIT || expected.place >= POSITION_LIMIT {
        return case.refuse();
    }
    match parse_segment(spelling, from, expected, octets) {
        Some(segment) => put_segment(case, &segment),
        None => case.put("no segment"),
    }
}

fn put_segment(case: &mut Case, segment: &HeardSegment<'_>) {
    put_head(case, segment);
    for option in segment.options {
        case.tell_behind("; ", &option);
    }
    case.put("; ");
    case.put_digits(segment.payload);
}

fn put_head(case: &mut Case, segment: &HeardSegment<'_>) {
    case.tell(&segment.position);
    case.tell_behind(" ", &segment.acknowledged);
    case.tell_behind(" ", &segment.syn);
    case.tell_behind(" ", &segment.fin);
    case.tell_behind(" ", &segment.rst);
    case.tell_behind(" ", &segment.window);
    case.tell_behind(" ", &segment.mss);
}
