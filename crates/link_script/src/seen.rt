//! The lines of a script that were read, with what says at once whether a further one may stand.

ghost use Rattle.std.specs.Prelude.{◌≡◌, ◌+◌, ◌^◌, ◌<◌, ◌||◌, ◌++◌, ◌∷◌, [], cond, OnOk, OnErr};
ghost use Rattle.std.specs.List.{list_any};
ghost use Rattle.std.specs.HashSet.{contains, IsUnchanged};
ghost use Rattle.link_script.specs.Places.{is_path, is_end, is_out_of_order, is_repeated};
ghost use Rattle.link_script.specs.Settled.{same_key, has_key};
ghost use Rattle.link_script.specs.declared.settled.Settled.{Settled};

use crate::line::Line;
use crate::place::{Subject, is_end, is_misplaced, is_path, settled_by};
use crate::settled::{Settled, key_of};
use std::alloc::{AllocError, Global};
use std::collections::HashSet;
use std::marker::Model;

/// The lines so far.
#[derive(Drop)]
pub struct Seen {
    lines: Vec<Line>,
    // How many of them are paths.
    paths: usize,
    // One of them is the end.
    ended: bool,
    // What they settle.
    settled: HashSet<Settled>,
}

impl Model for Seen {
    ghost use Rattle.std.specs.Prelude.{◌≡◌, List, count_by};
    ghost use Rattle.std.specs.List.{list_any};
    ghost use Rattle.std.specs.HashSet.{contains};
    ghost use Rattle.link_script.specs.declared.line.Line.{Line};
    ghost use Rattle.link_script.specs.declared.settled.Settled.{Settled};
    ghost use Rattle.link_script.specs.Places.{is_path, is_end};
    ghost use Rattle.link_script.specs.Settled.{same_key, settles_key};

    ghost Value = { List Line };

    ghost view = { λ s. s.lines.items };

    ghost invariant = { λ s. (s.paths ≡ count_by is_path s.lines.items) × (s.ended ≡ list_any is_end s.lines.items) × ((key : Settled) → contains same_key s.settled key ≡ list_any (settles_key key) s.lines.items) };
}

/// One path more, where the line is one.
fn paths_with(paths: usize, line: &Line) -> usize
    requires { paths < 2 ^ 63 }
    ensures { result ≡ paths + cond (is_path line.now) 1 0 }
{
    if is_path(line) { paths + 1 } else { paths }
}

/// Whether one is the end, with one line more.
fn ended_with(ended: bool, line: &Line) -> bool
    ensures { result ≡ (ended || is_end line.now) }
{
    ended || is_end(line)
}

/// One subject more is settled, where there is one.
fn settle(settled: &mut HashSet<Settled>, subject: Option<Subject>) -> Result<(), AllocError>
    ensures ok { OnOk result ((key : Settled) → contains same_key settled.new key ≡
        (contains same_key settled.old key || has_key subject key)) }
    ensures err { OnErr result (IsUnchanged settled.old settled.new) }
{
    match subject {
        Some(subject) => {
            settled.insert(key_of(subject))?;
            Ok(())
        }
        None => Ok(()),
    }
}

impl Seen {
    /// No line.
    pub fn new(alloc: Global) -> Self
        ensures { result ≡ [] }
    {
        Seen {
            lines: Vec::new(alloc),
            paths: 0,
            ended: false,
            settled: HashSet::new(alloc),
        }
    }

    /// The lines.
    pub fn as_slice(&self) -> &[Line]
        ensures { result.now ≡ self.now }
    {
        &self.lines
    }

    /// Whether the script has ended.
    pub fn has_ended(&self) -> bool
        ensures { result ≡ list_any is_end self.now }
    {
        self.ended
    }

    /// Whether a line can't stand after these.
    pub fn is_out_of_order(&self, line: &Line) -> bool
        ensures { result ≡ is_out_of_order self.now line.now }
    {
        self.ended || is_misplaced(self.paths, line)
    }

    /// Whether a line settles what one of these has settled.
    pub fn is_repeated(&self, line: &Line) -> bool
        ensures { result ≡ is_repeated self.now line.now }
    {
        match settled_by(line) {
            Some(subject) => self.settled.contains(&key_of(subject)),
            None => false,
        }
    }

    /// A line behind the others.
    ///
    /// # Errors
    ///
    /// Only where there is no memory, and then the lines stay.
    pub fn push(&mut self, line: Line) -> Result<(), AllocError>
        ensures ok { OnOk result (self.new ≡ self.old ++ line ∷ []) }
        ensures err { OnErr result (self.new ≡ self.old) }
    {
        self.lines.reserve(1)?;
        settle(&mut self.settled, settled_by(&line))?;
        self.paths = paths_with(self.paths, &line);
        self.ended = ended_with(self.ended, &line);
        match self.lines.push(line) {
            Ok(()) => Ok(()),
            Err(_) => unreachable!(),
        }
    }
}
