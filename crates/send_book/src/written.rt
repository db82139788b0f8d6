//! The written octets of a direction, in the parts in which they were written.
ghost use Rattle.std.specs.Prelude.{◌≡◌, ℕ, ◌+◌, ◌-◌, ◌^◌, ◌<◌, ◌≤◌, [], ◌∷◌, ◌++◌, length, take, drop, slice_index_or, IfOk, OnOk, OnErr};
ghost use Rattle.std.specs.List.Sorted.{IsNonDecreasingBy};
ghost use Rattle.std.specs.Vec.{vec_len, vec_capacity};
ghost use Rattle.range_marks.specs.Marks.{marks_len, after_extend};
ghost use Rattle.send_book.specs.Tried.{no_paths};
ghost use Rattle.send_book.specs.declared.mark.ByteMark.TheVariants.{Free};
ghost use Rattle.send_book.specs.declared.written.Part.{Part};
ghost use Rattle.send_book.specs.Written.{joined, Follow};

use crate::mark::ByteMark;
use crate::tried::Tried;
use octet_text::Text;
use range_marks::RangeMarks;
use std::alloc::{AllocError, Global};
use std::marker::Model;

/// What was taken of one write, at least one octet.
#[derive(Drop)]
pub(crate) struct Part {
    /// The place after its last octet.
    pub(crate) end: u64,
    /// The octets, shared with the write.
    pub(crate) octets: Text,
}

/// All written octets. Contracts see their list.
#[derive(Drop)]
pub(crate) struct Written {
    parts: Vec<Part>,
}

impl Model for Written {
    ghost use Rattle.std.specs.Prelude.{List, ℕ};
    ghost use Rattle.send_book.specs.Written.{joined, Follow};

    ghost Value = { List ℕ };

    ghost view = { λ written. joined written.parts.items };

    ghost invariant = { λ written. Follow 0 written.parts.items };
}

impl Written {
    /// No octets, which takes no memory.
    pub(crate) fn new(alloc: Global) -> Self
        ensures { result ≡ [] }
    {
        Written {
            parts: Vec::new(alloc),
        }
    }

    /// Appends octets, and as many free marks. All memory is taken before the first change.
    pub(crate) fn append(
        &mut self,
        marks: &mut RangeMarks<ByteMark>,
        octets: Text,
    ) -> Result<(), AllocError>
        requires whole { length self.old ≡ marks_len marks.old }
        requires few { marks_len marks.old + length octets < 2 ^ 63 }
        ensures written { OnOk result (self.new ≡ self.old ++ octets) }
        ensures marks { OnOk result (marks.new ≡
            after_extend (length octets) (Free no_paths) marks.old) }
        ensures written_err { OnErr result (self.new ≡ self.old) }
        ensures marks_err { OnErr result (marks.new ≡ marks.old) }
    {
        let end = marks.len() + octets.len() as u64;
        let free = ByteMark::Free {
            tried: Tried::new(),
        };
        self.parts.reserve(1)?;
        marks.extend(octets.len() as u64, free)?;
        if !octets.is_empty() {
            push_reserved(&mut self.parts, Part { end, octets });
        }
        Ok(())
    }

    /// The octets from the place `from` up to the place `to`: shared where one write gave them, otherwise copied.
    pub(crate) fn part(&self, alloc: Global, from: u64, to: u64) -> Result<Text, AllocError>
        requires order { from ≤ to }
        requires within { to ≤ length self.now }
        ensures { IfOk result (λ text. text ≡ take (to - from) (drop from self.now)) }
    {
        part_of(alloc, self.parts.as_slice(), from, to)
    }
}

// Appends where room was reserved.
fn push_reserved(parts: &mut Vec<Part>, part: Part)
    requires { vec_len parts.old < vec_capacity parts.old }
    ensures { parts.new.items ≡ parts.old.items ++ part ∷ [] }
{
    match parts.push(part) {
        Ok(()) => {}
        Err(_) => unreachable!(),
    }
}

// How many parts end at or before this place, found by halving.
fn ended_by(parts: &[Part], place: u64) -> usize
    requires { IsNonDecreasingBy (λ p. p.end) parts.now }
    ensures within { result ≤ length parts.now }
    ensures ended { (k : ℕ) (d : Part) → k < result → (slice_index_or parts.now k d).end ≤ place }
{
    parts.partition_point(|part| part.end <= place)
}

// The place after so many parts.
fn begin_of(parts: &[Part], count: usize) -> u64
    requires follow { Follow 0 parts.now }
    requires within { count ≤ length parts.now }
    ensures { result ≡ length (joined (take count parts.now)) }
{
    if count == 0 {
        return 0;
    }
    parts[count - 1].end
}

// The octets of these parts from the place `from` up to the place `to`.
fn part_of(alloc: Global, parts: &[Part], from: u64, to: u64) -> Result<Text, AllocError>
    requires follow { Follow 0 parts.now }
    requires order { from ≤ to }
    ensures { IfOk result (λ text. text ≡ take (to - from) (drop from (joined parts.now))) }
{
    let first = ended_by(parts, from);
    let begin = begin_of(parts, first);
    cut(
        alloc,
        &parts[first..],
        (from - begin) as usize,
        (to - from) as usize,
    )
}

// Octets of these parts behind the first `skip`, `count` of them. Where the first part has them all they are shared.
fn cut(alloc: Global, parts: &[Part], skip: usize, count: usize) -> Result<Text, AllocError>
    requires { skip + count < 2 ^ 64 }
    ensures { IfOk result (λ text. text ≡ take count (drop skip (joined parts.now))) }
{
    if let Some(first) = parts.first() {
        if skip + count <= first.octets.len() {
            return first.octets.slice(skip, skip + count);
        }
    }
    gather(alloc, parts, skip, count)
}

// Octets of these parts behind the first `skip`, `count` of them, copied together.
fn gather(alloc: Global, parts: &[Part], skip: usize, count: usize) -> Result<Text, AllocError>
    ensures { IfOk result (λ text. text ≡ take count (drop skip (joined parts.now))) }
{
    let mut text = Text::new(alloc);
    let mut passed = skip;
    let mut left = count;
    for part in parts {
        if left == 0 {
            return text.share();
        }
        let octets = part.octets.as_bytes();
        let from = passed.min(octets.len());
        let taken = left.min(octets.len() - from);
        text.append(&octets[from..from + taken])?;
        passed -= from;
        left -= taken;
    }
    text.share()
}
