//! `message STEP ..`: what each step is answered by messages that come in pieces, in words with one blank between them. A step is
//! `feed:OCTETS`, answered `fed`; `next`, answered the message or `none`; or `rest`, answered the octets that are held.
//!
//! `frames OCTETS ..`: the frames of these messages, one behind the other.

use crate::steps::{Steps, put_steps};
use case_fields::Case;
use message_pipe::{Messages, frame};
use octet_text::Text;

pub fn message(case: &mut Case) {
    let mut messages = Messages::new(case.alloc);
    put_steps(case, &mut messages);
}

impl Steps for Messages {
    fn step(&mut self, case: &mut Case, name: &str) {
        match name {
            "feed" => feed(case, self),
            "next" => put_next(case, self),
            "rest" => case.put_digits(self.rest()),
            _ => case.refuse(),
        }
    }
}

fn feed(case: &mut Case, messages: &mut Messages) {
    match messages.feed(case.octets().as_slice()) {
        Ok(()) => case.put("fed"),
        Err(_) => case.fail(),
    }
}

fn put_next(case: &mut Case, messages: &mut Messages) {
    match messages.next() {
        Ok(Some(message)) => case.put_digits(message.as_bytes()),
        Ok(None) => case.put("none"),
        Err(_) => case.fail(),
    }
}

pub fn frames(case: &mut Case) {
    let mut framed = Text::new(case.alloc);
    for word in case.rest().split(' ') {
        case.read(word, " ");
        put_frame(case, &mut framed);
    }
    case.put_digits(framed.as_bytes());
}

fn put_frame(case: &mut Case, framed: &mut Text) {
    let message = case.octets();
    if message.len() > 65_535 {
        return case.refuse();
    }
    case.note(frame(case.alloc, message.as_slice(), framed));
}
