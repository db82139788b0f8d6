//! The rule on Data ACKs.

ghost use Rattle.std.specs.Prelude.{◌≡◌, ◌^◌, ◌<◌};
ghost use Rattle.judge_rules.specs.Acks.{ack_place, behind_fin, judged_ack, most_seen};

use crate::finding::Finding;
use crate::numbers::{place_near, told_number};
use mptcp_options::DataNumber;

/// A place, and the packet that told it.
#[derive(Clone, Copy)]
pub struct ToldPlace {
    pub place: u64,
    pub packet: u32,
}

/// What a Data ACK is judged by: the stream that it acknowledges, and the Data ACKs before it.
#[derive(Clone, Copy)]
pub struct AckFacts {
    /// The data number of place 0.
    pub first: u64,
    /// The end of the mapped places.
    pub top: u64,
    /// All places below this one were seen.
    pub whole: u64,
    /// Where the stream ends, if that was told.
    pub fin: Option<ToldPlace>,
    /// In plain TCP all places below this one came, without mappings. It is 0 where no place did.
    pub plain: u64,
    /// The highest one before on its subflow, where the capture was taken at its sender.
    pub highest: Option<u64>,
}

/// The place that a Data ACK acknowledges, or what breaks the rule `data-ack` (RFC 8684, section 3.3.2).
pub fn ack_place(facts: &AckFacts, number: &DataNumber) -> Result<u64, Finding>
    requires top { facts.now.top < 2 ^ 63 }
    requires whole { facts.now.whole < 2 ^ 63 }
    ensures { result ≡ ack_place facts.now number.now }
{
    match place_near(facts.first, facts.top, number) {
        Some(place) => judged_ack(facts, place),
        None => Err(Finding::NoPlace {
            number: told_number(number),
        }),
    }
}

// Judges the place that an acknowledgement means.
fn judged_ack(facts: &AckFacts, place: u64) -> Result<u64, Finding>
    requires { facts.now.whole < 2 ^ 63 }
    ensures { result ≡ judged_ack facts.now place }
{
    let most = most_seen(facts);
    if place > most {
        return Err(Finding::NotSeen { place, most });
    }
    match facts.highest {
        Some(after) if place < after => Err(Finding::Falls { place, after }),
        _ => Ok(place),
    }
}

// The most that may be acknowledged: behind what was seen, or behind what came in plain TCP (section 3.7).
fn most_seen(facts: &AckFacts) -> u64
    requires { facts.now.whole < 2 ^ 63 }
    ensures { result ≡ most_seen facts.now }
{
    behind_fin(facts.fin, facts.whole).max(facts.plain)
}

// The DATA_FIN is acknowledged as an octet, once all before it was seen (section 3.3.3).
fn behind_fin(fin: Option<ToldPlace>, whole: u64) -> u64
    requires { whole < 2 ^ 63 }
    ensures { result ≡ behind_fin fin whole }
{
    match fin {
        Some(told) if told.place == whole => whole + 1,
        _ => whole,
    }
}
