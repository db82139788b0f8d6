//! Parting a text at an octet.

ghost use Rattle.std.specs.Prelude.{◌≡◌, ◌==◌, position};
ghost use Rattle.run_outside.specs.Parting.{parted_at};

/// What stands before the first such octet, and what stands after it.
pub fn split_at_first(text: &[u8], separator: u8) -> (&[u8], &[u8])
    ensures before { result.0.now ≡ (parted_at separator text.now).0 }
    ensures after { result.1.now ≡ (parted_at separator text.now).1 }
{
    match first_place(text, separator) {
        Some(at) => (&text[..at], &text[at + 1..]),
        None => (text, &[]),
    }
}

/// The place of the first such octet.
fn first_place(text: &[u8], separator: u8) -> Option<usize>
    ensures { result ≡ position (λ octet. octet == separator) text.now }
{
    text.iter().position(|octet| *octet == separator)
}
