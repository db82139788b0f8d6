//! A gate for tests, at which chosen actors meet.

use actor_turn::Gate;
use sides::Object;
use std::alloc::{AllocError, Global};
use std::sync::atomic::{AtomicBool, Ordering};
use std::thread;

/// Where an actor stands.
#[derive(Clone, Copy, PartialEq, Eq)]
enum Place {
    /// At the beginning of its turn.
    Turn,
    /// Under the lock of an object.
    Under(Object),
}

/// One of those that are to meet.
#[derive(Drop)]
struct Meeting {
    actor: u8,
    place: Place,
    /// The actor has come.
    came: AtomicBool,
    /// The actor saw that all had come.
    saw_all: AtomicBool,
}

impl Meeting {
    fn new(actor: u8, place: Place) -> Self {
        Meeting {
            actor,
            place,
            came: AtomicBool::new(false),
            saw_all: AtomicBool::new(false),
        }
    }
}

/// A gate at which chosen actors meet: each, when it first comes to its place, waits until all have come to theirs, for as
/// long as its tries last. Threads that run one after the other, or under one lock, never meet.
#[derive(Drop)]
pub struct MeetGate {
    meetings: Vec<Meeting>,
    /// How often each looks whether all have come.
    tries: u64,
}

impl MeetGate {
    /// A gate at which these actors meet at the beginning of a turn. Each looks so many times at most.
    ///
    /// # Errors
    ///
    /// Only where there is no memory.
    pub fn turns(alloc: Global, actors: &[u8], tries: u64) -> Result<MeetGate, AllocError> {
        let mut meetings = Vec::new(alloc);
        for actor in actors {
            meetings.push(Meeting::new(*actor, Place::Turn))?;
        }
        Ok(MeetGate { meetings, tries })
    }

    /// A gate at which each of these actors holds the lock of its object while they meet. Each looks so many times at most.
    ///
    /// # Errors
    ///
    /// Only where there is no memory.
    pub fn holds(
        alloc: Global,
        places: &[(u8, Object)],
        tries: u64,
    ) -> Result<MeetGate, AllocError> {
        let mut meetings = Vec::new(alloc);
        for (actor, object) in places {
            meetings.push(Meeting::new(*actor, Place::Under(*object)))?;
        }
        Ok(MeetGate { meetings, tries })
    }

    /// Whether each of them saw that all had come.
    pub fn met(&self) -> bool {
        self.meetings
            .iter()
            .all(|meeting| meeting.saw_all.load(Ordering::SeqCst))
    }

    fn all_came(&self) -> bool {
        self.meetings
            .iter()
            .all(|meeting| meeting.came.load(Ordering::SeqCst))
    }

    /// Waits for all, and notes whether they came.
    fn wait(&self, meeting: &Meeting) {
        for _ in 0..self.tries {
            if self.all_came() {
                meeting.saw_all.store(true, Ordering::SeqCst);
                return;
            }
            thread::yield_now();
        }
    }

    /// An actor comes to a place. Only the first time is it made to wait.
    fn come(&self, actor: u8, place: Place) {
        for meeting in &self.meetings {
            let named = meeting.actor == actor && meeting.place == place;
            if named && !meeting.came.swap(true, Ordering::SeqCst) {
                self.wait(meeting);
            }
        }
    }
}

impl Gate for MeetGate {
    fn turn(&self, actor: u8) {
        self.come(actor, Place::Turn);
    }

    fn held(&self, actor: u8, object: Object) {
        self.come(actor, Place::Under(object));
    }
}
