//! `marks STEP ..`: what each step of the marks of places answers, from no place on: `extend:COUNT:MARK`, `mark:FROM:TO:MARK`,
//! `front:TO`, `back:TO`, `first:FROM:MARK`, `run:AT`, and `runs`, each run as `FROM-TO=MARK` with `,` between them.

ghost use Rattle.std.specs.Prelude.{◌≤◌, ◌<◌, ◌+◌, ◌^◌};

use crate::steps::{Steps, put_steps};
use case_fields::Case;
use range_marks::RangeMarks;

/// More places than any case has.
const MOST: u64 = 1 << 32;

pub fn marks(case: &mut Case) {
    let mut marks: RangeMarks<u8> = RangeMarks::new(case.alloc);
    put_steps(case, &mut marks);
}

impl Steps for RangeMarks<u8> {
    fn step(&mut self, case: &mut Case, name: &str) {
        match name {
            "extend" => extend(case, self),
            "mark" => mark(case, self),
            "front" => drop_front(case, self),
            "back" => cut_back(case, self),
            "first" => put_first(case, self),
            "run" => {
                let run = self.run_at(case.number());
                case.tell(&run);
            }
            "runs" => put_runs(case, self),
            _ => case.refuse(),
        }
    }
}

fn extend(case: &mut Case, marks: &mut RangeMarks<u8>) {
    let count: u64 = case.number();
    if count > MOST || marks.len() > MOST {
        return case.refuse();
    }
    let mark = case.number();
    case.note(marks.extend(count, mark));
}

fn mark(case: &mut Case, marks: &mut RangeMarks<u8>) {
    let (from, to): (u64, u64) = (case.number(), case.number());
    if to < from || marks.len() < to {
        return case.refuse();
    }
    let mark = case.number();
    case.note(marks.mark(from, to, mark));
}

fn drop_front(case: &mut Case, marks: &mut RangeMarks<u8>) {
    let to: u64 = case.number();
    if marks.len() < to {
        return case.refuse();
    }
    marks.drop_front(to);
}

fn cut_back(case: &mut Case, marks: &mut RangeMarks<u8>) {
    let to: u64 = case.number();
    if to < marks.forgotten() {
        return case.refuse();
    }
    marks.cut_back(to);
}

fn put_first(case: &mut Case, marks: &RangeMarks<u8>) {
    let (from, mark): (u64, u8) = (case.number(), case.number());
    case.tell(&marks.first_where(from, &mark));
}

fn put_runs(case: &mut Case, marks: &RangeMarks<u8>) {
    let mut first = true;
    for run in marks.runs() {
        if !first {
            case.put(",");
        }
        first = false;
        case.say(&run.from);
        case.say_behind("-", &run.to);
        case.say_behind("=", &run.mark);
    }
}
