//! Within how many rounds the run of a clean script ends: `enough | SCRIPT | LENGTH_A | LENGTH_B`, with the lengths of both files
//! in octets. Shown is the answer of `rounds_enough`.

use crate::inputs::input_of;
use case_fields::Case;
use clean_finish::rounds_enough;

/// Puts the bound that a line asks for, whose fields the case has.
pub fn enough(case: &mut Case, line: &str) {
    let (_, script) = (case.word(), case.word());
    let (length_a, length_b): (u64, u64) = (case.number(), case.number());
    if length_a > 16_777_216 || length_b > 16_777_216 {
        return case.refuse();
    }
    case.put(line);
    case.put("\n  ");
    match input_of(
        case.alloc,
        script,
        Vec::new(case.alloc),
        Vec::new(case.alloc),
    ) {
        Ok(input) => case.tell(&rounds_enough(&input.script, length_a, length_b)),
        Err(_) => case.refuse(),
    }
}
