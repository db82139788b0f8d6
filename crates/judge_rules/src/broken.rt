//! The rules that a side broke, each where it broke it first.

ghost use Rattle.std.specs.Prelude.{◌≡◌, OnOk, OnErr};
ghost use Rattle.std.specs.List.{list_any};
ghost use Rattle.judge_rules.specs.Broken.{is_of_rule, told_first};

use crate::finding::{Finding, Rule};
use std::alloc::AllocError;

/// Why a rule was broken.
#[derive(Clone, Copy)]
pub enum Fault<'a> {
    /// `form`: these octets read as no option.
    NoOption { octets: &'a [u8] },
    Found { finding: Finding },
}

/// A rule that was broken, and the packet that showed it.
#[derive(Clone, Copy)]
pub struct Broken<'a> {
    pub rule: Rule,
    pub packet: u32,
    pub fault: Fault<'a>,
}

/// Adds a rule that was broken, unless it is there: where it was broken first stays.
///
/// # Errors
///
/// Where memory is wanting, and then the rules stay.
pub fn tell<'a>(broken: &mut Vec<Broken<'a>>, fault: Broken<'a>) -> Result<(), AllocError>
    ensures ok { OnOk result (broken.new.items ≡ told_first fault.entry broken.old.items) }
    ensures err { OnErr result (broken.new.items ≡ broken.old.items) }
{
    if is_broken(broken, fault.rule) {
        return Ok(());
    }
    broken.push(fault)?;
    Ok(())
}

// Whether a rule is there.
fn is_broken(broken: &[Broken<'_>], rule: Rule) -> bool
    ensures { result ≡ list_any (is_of_rule rule) broken.now }
{
    broken
        .iter()
        .any(|broken| broken.rule.number() == rule.number())
}
