//! A case that is taken step by step: words with one blank between them, each a name and its fields with `:` between them.

use case_fields::Case;

/// What takes the steps of a case.
pub trait Steps {
    /// Takes the step of this name, whose fields the case has, and puts its answer.
    fn step(&mut self, case: &mut Case, name: &str);
}

/// Takes all steps that the case still has, and puts their answers, each behind a blank where something stands before it. An empty
/// answer isn't told.
pub fn put_steps<S: Steps>(case: &mut Case, state: &mut S) {
    for step in case.rest().split(' ') {
        put_step(case, state, step);
    }
}

fn put_step<S: Steps>(case: &mut Case, state: &mut S, step: &'static str) {
    let is_first = case.answered() == 0;
    if !is_first {
        case.put(" ");
    }
    let before = case.answered();
    case.read(step, ":");
    let name = case.word();
    state.step(case, name);
    if !is_first && case.answered() == before {
        case.take_back();
    }
}
