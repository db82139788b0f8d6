ghost use Rattle.std.specs.Prelude.{◌≡◌, ◌+◌, ◌≤◌, ℕ, Some, IfSome, List, [], ◌++◌, length, map};
ghost use Rattle.reassembly_book.specs.declared.call.ReassemblyCall.{ReassemblyCall};
ghost use Rattle.reassembly_book.specs.declared.call.ReassemblyCall.TheVariants.{Read};
ghost use Rattle.reassembly_book.specs.declared.call.ReassemblyReply.TheVariants.{Bytes};
ghost use Rattle.reassembly_book.specs.State.{Arriving, IsSound, new_arriving};
ghost use Rattle.reassembly_book.specs.Steps.{reply_to};
ghost use Rattle.reassembly_book.specs.Laws.{after_calls, read_by, came_by, told_edge};

/// A law: over every list of calls, what was read and what is kept are, place by place, the bytes that came first.
pub fn read_is_what_came_first()
    ensures { (calls : List ReassemblyCall) (capacity : ℕ) →
        came_by calls (new_arriving capacity) []
        ≡ map Some (read_by calls (new_arriving capacity)) ++
        (after_calls calls (new_arriving capacity)).places }
{}

/// A law: a known end never changes.
pub fn known_end_stays()
    ensures { (calls : List ReassemblyCall) (b : Arriving) (e : ℕ) → b.known_end ≡ Some e
        → (after_calls calls b).known_end ≡ Some e }
{}

/// A law: over every list of calls nothing is kept or read past the known end, and no more is kept than is taken.
pub fn nothing_lies_past_the_end()
    ensures sound { (calls : List ReassemblyCall) (capacity : ℕ) →
        IsSound (after_calls calls (new_arriving capacity)) }
    ensures read { (calls : List ReassemblyCall) (capacity e : ℕ) →
        (after_calls calls (new_arriving capacity)).known_end ≡ Some e
        → length (read_by calls (new_arriving capacity)) ≤ e }
{}

/// A law: what was told to be taken is never taken back.
pub fn told_window_stays()
    ensures { (calls : List ReassemblyCall) (b : Arriving) → IsSound b →
        told_edge b ≤ told_edge (after_calls calls b) }
{}

/// A law: a reply with bytes has at least one, and no more than were asked for.
pub fn some_bytes_are_read()
    ensures some { (b : Arriving) (max : ℕ) (bytes : List ℕ) → reply_to b (Read max) ≡ Bytes bytes →
        1 ≤ length bytes }
    ensures most { (b : Arriving) (max : ℕ) (bytes : List ℕ) → reply_to b (Read max) ≡ Bytes bytes →
        length bytes ≤ max }
{}
