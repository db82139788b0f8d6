//! `records STEP ..`: what each step of the sending side of a subflow answers, from its SYN on: `push:OCTETS`, `finish`,
//! `sent:TICK`, `ack:POSITION`, `expire`, `resent:TICK`, `fin-sent:TICK`; `due`, `first` (the first one that isn't acknowledged)
//! and `at:POSITION` show a record; `sample:POSITION`, `flight` (and whether the flight was sent again), `ends` (SND.UNA and
//! SND.NXT), `new-fin`.

ghost use Rattle.std.specs.Prelude.{◌≤◌, ◌<◌, ◌^◌, length};

use crate::steps::{Steps, put_steps};
use case_fields::Case;
use octet_text::Text;
use seq_units::Mapping;
use subflow_send::{RecordRef, SubflowSend};

/// The mapping of each piece.
const MAPPING: Mapping = Mapping {
    number: 7,
    relative: 1,
    length: 2,
    checksum: 0,
};

pub fn records(case: &mut Case) {
    let mut side = SubflowSend::new(case.alloc);
    put_steps(case, &mut side);
}

impl Steps for SubflowSend {
    fn step(&mut self, case: &mut Case, name: &str) {
        match name {
            "push" => push(case, self),
            "finish" => finish(case, self),
            "expire" => self.expired(),
            "ack" => {
                let kind = self.acknowledge(case.number());
                case.tell(&kind);
            }
            "sent" | "resent" | "fin-sent" => at_tick(case, self, name),
            _ => show(case, self, name),
        }
    }
}

/// What is shown of the side.
fn show(case: &mut Case, side: &SubflowSend, name: &str) {
    match name {
        "due" => put_record(case, side.due()),
        "first" => put_record(case, side.retransmit_first()),
        "at" => {
            let record = side.record_at(case.number());
            put_record(case, record);
        }
        "flight" => {
            case.tell(&side.flight());
            case.tell_behind("/", &side.again());
        }
        "ends" => case.put_numbers("/", &[side.una(), side.nxt()]),
        "new-fin" => case.tell(&side.has_new_fin()),
        "sample" => {
            let sample = side.sample(case.number());
            case.tell(&sample);
        }
        _ => case.refuse(),
    }
}

/// What is sent, or sent again, at a tick.
fn at_tick(case: &mut Case, side: &mut SubflowSend, name: &str) {
    let tick: u64 = case.number();
    match name {
        "sent" => send(case, side, tick),
        "resent" => side.resent(tick),
        _ => side.fin_sent(tick),
    }
}

fn send(case: &mut Case, side: &mut SubflowSend, tick: u64) {
    if side.due().is_none() {
        return case.refuse();
    }
    side.sent(tick);
}

fn push(case: &mut Case, side: &mut SubflowSend) {
    let octets = Text::from(case.octets());
    push_octets(case, side, &octets);
}

fn push_octets(case: &mut Case, side: &mut SubflowSend, octets: &Text) {
    if octets.is_empty() || octets.len() > 1_000 || side.nxt() > 1 << 32 || side.is_finished() {
        return case.refuse();
    }
    if side.push(octets, &MAPPING).is_err() {
        case.fail();
    }
}

fn finish(case: &mut Case, side: &mut SubflowSend) {
    if side.is_finished() {
        return case.refuse();
    }
    side.finish();
}

fn put_record(case: &mut Case, record: Option<RecordRef<'_>>) {
    match record {
        Some(record) => {
            case.say(&record.pos);
            case.tell_behind("/", &record.kind);
            case.put("/");
            case.put_digits(record.piece);
        }
        None => case.put("None"),
    }
}
