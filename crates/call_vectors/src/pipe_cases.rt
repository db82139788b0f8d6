//! `pipe STEP ..`: what each step of a stream that opens empty is answered, in words with one blank between them. A step is
//! `write:OCTETS`, `close`, `read:COUNT`, `ack:TO:RECEIVED` or `end`.

use crate::steps::{Steps, put_steps};
use case_fields::Case;
use octet_text::Text;
use pipe_model::{Pipe, PipeFault, PipeStep, pipe_step};

pub fn pipe(case: &mut Case) {
    let mut pipe = Pipe::new(case.alloc);
    put_steps(case, &mut pipe);
}

impl Steps for Pipe {
    fn step(&mut self, case: &mut Case, name: &str) {
        match step_of(case, name) {
            Some(step) => case.put(word_of(pipe_step(self, &step))),
            None => case.refuse(),
        }
    }
}

fn step_of(case: &mut Case, name: &str) -> Option<PipeStep> {
    match name {
        "write" => Some(PipeStep::Write {
            bytes: Text::from(case.octets()),
        }),
        "close" => Some(PipeStep::Close),
        "read" => Some(PipeStep::Read {
            count: case.number(),
        }),
        "ack" => Some(PipeStep::Ack {
            to: case.number(),
            received: case.number(),
        }),
        "end" => Some(PipeStep::TellEnd),
        _ => None,
    }
}

fn word_of(answer: Result<(), PipeFault>) -> &'static str {
    match answer {
        Ok(()) => "done",
        Err(PipeFault::Closed) => "closed",
        Err(PipeFault::Past) => "past",
        Err(PipeFault::Told) => "told",
        Err(PipeFault::NotAll) => "not-all",
        Err(PipeFault::Memory) => "memory",
    }
}
