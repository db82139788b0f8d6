//! The list of an actor's notes.
ghost use Rattle.std.specs.Prelude.{◌≡◌, ◌+◌, ◌^◌, ◌<◌, ◌++◌, ◌==◌, ◌↔◌, [], ◌∷◌, List, length, IfSome, IsNone, IsTrue, OnOk, OnErr, option_map};
ghost use Rattle.std.specs.List.{slice_get};
ghost use Rattle.actor_desk.specs.declared.ask.Note.{Note};

use crate::ask::Note;
use std::alloc::{AllocError, Global};
use std::marker::Model;

/// The most notes that a list has, 2^57 - 1.
const MOST_NOTES: u64 = (1 << 57) - 1;

/// Notes, one after the other. Contracts see their list.
#[derive(Drop)]
pub struct Notes {
    notes: Vec<Note>,
}

impl Model for Notes {
    ghost use Rattle.std.specs.Prelude.{List};
    ghost use Rattle.actor_desk.specs.declared.ask.Note.{Note};

    ghost Value = { List Note };

    ghost view = { λ n. n.notes.items };
}

impl Notes {
    /// No note, which takes no memory.
    pub fn new(alloc: Global) -> Self
        ensures { result ≡ [] }
    {
        Notes {
            notes: Vec::new(alloc),
        }
    }

    /// How many notes there are.
    pub fn len(&self) -> usize
        ensures { result ≡ length self.now }
    {
        self.notes.len()
    }

    /// Whether there is no note.
    pub fn is_empty(&self) -> bool
        ensures { result ≡ (length self.now == 0) }
    {
        self.notes.is_empty()
    }

    /// Whether there is room for a note more. There always is: 2^57 notes are longer than any vector.
    pub fn has_room(&self) -> bool
        ensures { IsTrue result ↔ (length self.now + 1 < 2 ^ 57) }
    {
        (self.notes.len() as u64) < MOST_NOTES
    }

    /// The notes in order, lent.
    pub fn as_slice(&self) -> &[Note]
        ensures { result.now ≡ self.now }
    {
        self.notes.as_slice()
    }

    /// The note of this number, lent, the first being 0; none where there are fewer.
    pub fn get(&self, index: usize) -> Option<&Note>
        ensures { option_map (λ note. note.now) result ≡ slice_get self.now index }
    {
        self.notes.get(index)
    }

    /// Puts a note at the end, or changes nothing where there is no memory for it.
    pub fn push(&mut self, note: Note) -> Result<(), AllocError>
        ensures ok { OnOk result (self.new ≡ self.old ++ note ∷ []) }
        ensures err { OnErr result (self.new ≡ self.old) }
    {
        self.notes.push(note)?;
        Ok(())
    }

    /// Takes the last note away; none where there is none.
    pub fn pop(&mut self) -> Option<Note>
        ensures some { IfSome result (λ note. self.old ≡ self.new ++ note ∷ []) }
        ensures none { IsNone result ↔ (self.old ≡ []) }
        ensures empty { IsNone result → self.new ≡ [] }
    {
        self.notes.pop()
    }

    /// The last note leaves the list, where there is one.
    pub fn take_back(&mut self)
        ensures { (notes : List Note) (note : Note) →
            self.old ≡ notes ++ note ∷ [] → self.new ≡ notes }
    {
        self.pop();
    }
}
