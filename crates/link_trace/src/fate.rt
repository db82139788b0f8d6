//! What becomes of a segment, in words.

ghost use Rattle.std.specs.Prelude.{◌≡◌, ◌++◌, OnOk, string_bytes};
ghost use Rattle.link_trace.specs.Fates.{again_words, arrival_words, fate_words, has_no_line, is_full, is_lost, is_on_time, is_plain, late_words};

use crate::multipath::word_if;
use link_model::{Fate, SegmentFate};
use std::alloc::AllocError;

fn has_no_line(arrival: Fate) -> bool
    ensures { result ≡ has_no_line arrival }
{
    matches!(arrival, Fate::OnTime)
}

/// Whether it arrives once, a delay after it was sent.
fn is_on_time(fate: &SegmentFate) -> bool
    ensures { result ≡ is_on_time fate.now }
{
    has_no_line(fate.arrival) && fate.waited == 0
}

/// Whether it doesn't arrive.
pub fn is_lost(arrival: Fate) -> bool
    ensures { result ≡ is_lost arrival }
{
    matches!(arrival, Fate::Lost | Fate::Full)
}

/// Whether a queue has no room for it.
pub fn is_full(arrival: Fate) -> bool
    ensures { result ≡ is_full arrival }
{
    matches!(arrival, Fate::Full)
}

/// Whether it arrives once, on time, and as it was sent.
pub fn is_plain(fate: &SegmentFate) -> bool
    ensures { result ≡ is_plain fate.now }
{
    is_on_time(fate) && !fate.stripped && !fate.altered
}

/// When it arrives that waited so many ticks.
fn put_late(text: &mut String, waited: u32) -> Result<(), AllocError>
    ensures { OnOk result (string_bytes text.new ≡ string_bytes text.old ++ late_words waited) }
{
    if waited == 0 {
        return write!(text, "on time");
    }
    write!(text, "late by {waited}")
}

/// When both copies arrive, the first of which waited so many ticks.
fn put_again(text: &mut String, waited: u32, ticks: u32) -> Result<(), AllocError>
    ensures { OnOk result (string_bytes text.new ≡
        string_bytes text.old ++ again_words waited ticks) }
{
    if waited == 0 {
        return write!(text, "repeated after {ticks}");
    }
    write!(text, "late by {waited}, repeated after {ticks}")
}

/// Whether and when it arrives that waited so many ticks.
fn put_arrival(text: &mut String, waited: u32, arrival: Fate) -> Result<(), AllocError>
    ensures { OnOk result (string_bytes text.new ≡
        string_bytes text.old ++ arrival_words waited arrival) }
{
    match arrival {
        Fate::OnTime => put_late(text, waited),
        Fate::Lost => write!(text, "lost"),
        Fate::Full => write!(text, "queue full"),
        Fate::Late { ticks } => {
            let late = u64::from(waited) + u64::from(ticks);
            write!(text, "late by {late}")
        }
        Fate::Twice { ticks } => put_again(text, waited, ticks),
    }
}

/// The words of a fate.
pub fn put_fate(text: &mut String, fate: &SegmentFate) -> Result<(), AllocError>
    ensures { OnOk result (string_bytes text.new ≡ string_bytes text.old ++ fate_words fate.now) }
{
    put_arrival(text, fate.waited, fate.arrival)?;
    let stripped = word_if(fate.stripped, ", stripped");
    let altered = word_if(fate.altered, ", altered");
    write!(text, "{stripped}{altered}")
}
