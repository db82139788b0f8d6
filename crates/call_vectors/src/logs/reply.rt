//! What books answer, by the names of the replies, in small letters, and their numbers: `granted FROM TO` and `bytes N` with so many
//! octets, `nogrant WHY END` with `-` for no end, `standing MODE STANDBY SOLE NOTICE`, `verdict VERDICT`, `rows` with three numbers
//! a row, and the others as they are declared. A truth value is 0 or 1.

use case_fields::Case;
use control_book::{ControlReply, Notice};
use fallback_state::{Mode, Verdict};
use linked_increase::{Row, Rows};
use octet_text::{JoinedText, Text};
use reassembly_book::ReassemblyReply;
use send_book::{SendReply, Span, Why};

/// As many octets as the next field says, at most 1,048,576.
pub fn octets_of(case: &mut Case) -> Text {
    let count: u64 = case.number();
    match vec![in case.alloc; 0u8; count.min(1_048_576) as usize] {
        Ok(octets) => Text::from(octets),
        Err(_) => {
            case.fail();
            Text::new(case.alloc)
        }
    }
}

/// The same in one part.
fn joined_of(case: &mut Case) -> JoinedText {
    let octets = octets_of(case);
    let mut joined = JoinedText::new(case.alloc);
    let done = match octets.to_shared() {
        Ok(part) => joined.push(part),
        Err(error) => Err(error),
    };
    if done.is_err() {
        case.fail();
    }
    joined
}

/// Why nothing is granted, by its name.
const REASONS: [(&str, Why); 4] = [
    ("ended", Why::Ended),
    ("backup", Why::Backup),
    ("nothingfree", Why::NothingFree),
    ("windowshut", Why::WindowShut),
];

pub fn send_reply(case: &mut Case) -> SendReply {
    match case.word() {
        "taken" => SendReply::Taken(case.number()),
        "closed" => SendReply::Closed,
        "shut" => SendReply::Shut,
        "granted" => SendReply::Granted {
            span: Span {
                from: case.number(),
                to: case.number(),
            },
            piece: Text::new(case.alloc),
        },
        "nogrant" => SendReply::NoGrant {
            why: case.one_of(&REASONS, Why::Ended),
            end: case.optional(),
        },
        "acked" => SendReply::Acked {
            bytes: case.number(),
            fin: case.truth(),
        },
        "ackfuture" => SendReply::AckFuture {
            written: case.number(),
        },
        "returned" => SendReply::Returned(case.number()),
        "noted" => SendReply::Noted,
        "infinite" => SendReply::Infinite {
            from: case.number(),
        },
        "scattered" => SendReply::Scattered,
        _ => {
            case.refuse();
            SendReply::Noted
        }
    }
}

pub fn reassembly_reply(case: &mut Case) -> ReassemblyReply {
    match case.word() {
        "placed" => ReassemblyReply::Placed(case.number()),
        "beyond" => ReassemblyReply::Beyond {
            edge: case.number(),
        },
        "finset" => ReassemblyReply::FinSet,
        "finclash" => ReassemblyReply::FinClash {
            fin: case.number(),
            at: case.number(),
        },
        "bytes" => ReassemblyReply::Bytes(joined_of(case)),
        "end" => ReassemblyReply::End,
        "noneyet" => ReassemblyReply::NoneYet,
        "aborted" => ReassemblyReply::Aborted {
            by_peer: case.truth(),
        },
        "ack" => ReassemblyReply::Ack {
            next: case.number(),
            window: case.number(),
        },
        "noted" => ReassemblyReply::Noted,
        _ => {
            case.refuse();
            ReassemblyReply::Noted
        }
    }
}

/// The modes, by their names.
const MODES: [(&str, Mode); 7] = [
    ("starting", Mode::Starting),
    ("sure", Mode::Sure),
    ("identity", Mode::Identity),
    ("infinitesend", Mode::InfiniteSend),
    ("infinitereceive", Mode::InfiniteReceive),
    ("infiniteboth", Mode::InfiniteBoth),
    ("aborted", Mode::Aborted),
];

/// The mode of the next field.
pub fn mode_of(case: &mut Case) -> Mode {
    case.one_of(&MODES, Mode::Aborted)
}

/// Notices that are a name alone.
const NOTICES: [(&str, Notice); 2] = [("nothing", Notice::Nothing), ("reset", Notice::Reset)];

fn notice_of(case: &mut Case) -> Notice {
    match case.word() {
        "announce" => Notice::Announce(case.number()),
        "withdraw" => Notice::Withdraw(case.number()),
        "carrier" => Notice::Carrier { key: case.number() },
        name => case.named(name, &NOTICES, Notice::Nothing),
    }
}

/// Verdicts that are a name alone.
const VERDICTS: [(&str, Verdict); 2] = [("stay", Verdict::Stay), ("sendfail", Verdict::SendFail)];

fn verdict_of(case: &mut Case) -> Verdict {
    match case.word() {
        "went" => Verdict::Went(mode_of(case)),
        "breakpath" => Verdict::BreakPath(case.number()),
        name => case.named(name, &VERDICTS, Verdict::Stay),
    }
}

/// The rows that are still to be read, three fields a row, at most 16.
fn rows_of(case: &mut Case) -> Rows {
    let mut rows = Rows::new(case.alloc);
    for _ in 0..16 {
        if case.has_more() && !rows.is_full() {
            let row = Row {
                path: case.number(),
                window: case.number(),
                rtt: case.number(),
            };
            if rows.push(row).is_err() {
                case.fail();
            }
        }
    }
    rows
}

/// A reply that says nothing but its name.
fn named_reply(case: &mut Case, name: &str) -> ControlReply {
    match name {
        "noted" => ControlReply::Noted,
        "notyet" => ControlReply::NotYet,
        "notconfirmed" => ControlReply::NotConfirmed,
        "echo" => ControlReply::Echo,
        "badhmac" => ControlReply::BadHmac,
        "known" => ControlReply::Known,
        "stopped" => ControlReply::Stopped,
        _ => {
            case.refuse();
            ControlReply::Noted
        }
    }
}

pub fn control_reply(case: &mut Case) -> ControlReply {
    match case.word() {
        "standing" => ControlReply::Standing {
            mode: mode_of(case),
            standby: case.truth(),
            sole: case.truth(),
            notice: notice_of(case),
        },
        "keysdiffer" => ControlReply::KeysDiffer { own: case.number() },
        "verdict" => ControlReply::Verdict(verdict_of(case)),
        "begin" => ControlReply::Begin {
            own: case.number(),
            peer: case.number(),
        },
        "never" => ControlReply::Never(mode_of(case)),
        "unknowntoken" => ControlReply::UnknownToken { own: case.number() },
        "fallen" => ControlReply::Fallen(mode_of(case)),
        "rows" => ControlReply::Rows(rows_of(case)),
        "otherkey" => ControlReply::OtherKey { own: case.number() },
        name => named_reply(case, name),
    }
}
