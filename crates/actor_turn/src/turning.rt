//! The turn of an actor at a desk, step by step to its end.
ghost use Rattle.std.specs.Prelude.{◌≡◌, ◌+◌, ◌-◌, ◌^◌, ◌<◌, ◌≤◌, ◌++◌, ◌⊎◌, ◌∷◌, ℕ, true, [], None, Some, length, IfOk, IfSome, OnOk, OnErr, MatchResult, option_map};
ghost use Rattle.std.specs.List.{slice_get};
ghost use Rattle.stamped_book.specs.declared.stamped.Refusal.TheVariants as refusals;
ghost use Rattle.actor_desk.specs.declared.ask.Note.{Note};
ghost use Rattle.actor_desk.specs.Bounds.{TakesReply};
ghost use Rattle.actor_desk.specs.Journals.{is_local};
ghost use Rattle.actor_desk.specs.Kinds.{CanBeAsked};
ghost use Rattle.actor_desk.specs.Noted.{Rises, note_of, noted};
ghost use Rattle.actor_turn.specs.Turns.{DoesStep, IsAnswered, IsLeft, IsMade, IsUsedUp, NotesOneMore, Stopped, Went};

use crate::gate::Gate;
use crate::report::Report;
use actor_desk::{Actor, Ask, Crew, Desk, Note, Notes, Reply};
use stamped_book::{Pass, Refusal, go_on};
use std::alloc::{AllocError, Global};

// The reply to an ask: of the desk, or of nobody to a local step.
fn answered<D: Desk>(desk: &mut D, pass: &mut Pass, ask: &Ask) -> Result<Reply, Refusal>
    requires conditions { CanBeAsked ask.now }
    requires serves { D.serves desk.old pass.old.actor }
    ensures takes { IfOk result (λ reply. TakesReply (Some ask.now) reply) }
    ensures rises { OnOk result (Rises pass.old pass.new) }
    ensures local { OnOk result (is_local ask.now ≡ true → pass.new.stamp ≡ pass.old.stamp + 1) }
    ensures notes { IfOk result (λ reply. D.notes desk.new ≡
        noted (D.notes desk.old) (note_of pass.old pass.new ask.now reply)) }
    ensures answers { IfOk result (λ reply.
        IsAnswered D.answers desk.old desk.new pass.old pass.new ask.now reply) }
    ensures err { OnErr result (D.notes desk.new ≡ D.notes desk.old) }
    ensures pass_err { OnErr result (pass.new ≡ pass.old) }
    ensures full { result ≡ Err refusals.Stamps →
        (2 ^ 62 - 1 ≤ pass.old.stamp) ⊎ D.is_full desk.new ask.now pass.old }
    ensures origin { D.origin desk.new ≡ D.origin desk.old }
    ensures root { D.root desk.new ≡ D.root desk.old }
    ensures serving { (actor : ℕ) → D.serves desk.old actor → D.serves desk.new actor }
{
    match ask {
        Ask::Local(_) => {
            go_on(pass)?;
            Ok(Reply::Done)
        }
        Ask::Send(_, _) => desk.call(pass, ask),
        Ask::Reassembly(_, _) => desk.call(pass, ask),
        Ask::Control(_, _) => desk.call(pass, ask),
    }
}

// The actor takes the reply of the note at this place of its list, and what is wanted of the note is answered. Where there is no
// such note nothing is done.
fn take_at<A: Actor, R: Report + Drop>(
    member: &mut A,
    list: &Notes,
    at: usize,
) -> Result<Option<R>, AllocError>
    requires { IfSome (slice_get list.now at) (λ note. TakesReply (A.asks member.old) note.reply) }
    ensures report { IfOk result (λ report. report ≡ option_map R.of (slice_get list.now at)) }
    ensures ok { (note : Note) → slice_get list.now at ≡ Some note
        → OnOk result (member.new ≡ A.takes note.reply member.old) }
    ensures err { OnErr result (member.new ≡ member.old) }
{
    match list.get(at) {
        Some(note) => {
            let report = R::of(note)?;
            member.take(&note.reply)?;
            Ok(Some(report))
        }
        None => Ok(None),
    }
}

// Notes a step, answers what is wanted of it, and takes its reply, which is the last that can fail: the actor is then as it was.
fn keep<A: Actor, R: Report + Drop>(crew: &mut Crew<A>, note: Note) -> Result<Option<R>, AllocError>
    requires { TakesReply (A.asks crew.old.member) note.reply }
    ensures report { IfOk result (λ report. report ≡ Some (R.of note)) }
    ensures ok { OnOk result (crew.new ≡
        record crew.old
        { member = A.takes note.reply crew.old.member; list = crew.old.list ++ note ∷ [] }) }
    ensures err { OnErr result (crew.new ≡ crew.old) }
{
    let at = crew.list.len();
    crew.list.push(note)?;
    let taken = take_at::<A, R>(&mut crew.member, &crew.list, at);
    if taken.is_err() {
        crew.list.take_back();
    }
    taken
}

/// One step of an actor at a desk, and what is wanted of its note; nothing where the actor asks nothing, and then nothing
/// changes.
///
/// # Errors
///
/// `Memory` where there is none for the step, and `Stamps` where the pass stands at 2^62 - 1 or more, or the desk is full for
/// what the actor asks. The actor and its list are then as before; the pass may have risen, and the desk noted one call more.
pub fn step<A: Actor, D: Desk, R: Report + Drop>(
    alloc: Global,
    crew: &mut Crew<A>,
    desk: &mut D,
) -> Result<Option<R>, Refusal>
    requires { D.serves desk.old crew.old.pass.actor }
    ensures made { IfOk result (λ made. IfSome made (λ report.
        DoesStep A.asks A.takes crew.old crew.new
        (IsMade D.notes D.answers R.of desk.old desk.new crew.old.pass crew.new.pass report))) }
    ensures over { IfOk result (λ made. made ≡ None → A.asks crew.old.member ≡ None) }
    ensures rests { IfOk result (λ made. made ≡ None → crew.new ≡ crew.old) }
    ensures quiet { IfOk result (λ made. made ≡ None → desk.new ≡ desk.old) }
    ensures refused { crew.new.refused ≡ crew.old.refused }
    ensures left { OnErr result (IsLeft crew.old crew.new) }
    ensures more { OnErr result (NotesOneMore (D.notes desk.old) (D.notes desk.new)) }
    ensures full { result ≡ Err refusals.Stamps → IsUsedUp A.asks (D.is_full desk.new) crew.new }
    ensures few { length crew.old.list < 2 ^ 57 → length crew.new.list < 2 ^ 57 }
    ensures origin { D.origin desk.new ≡ D.origin desk.old }
    ensures root { D.root desk.new ≡ D.root desk.old }
    ensures serving { (actor : ℕ) → D.serves desk.old actor → D.serves desk.new actor }
{
    let Some(ask) = crew.member.ask(alloc)? else {
        return Ok(None);
    };
    if !crew.list.has_room() {
        return Err(Refusal::Memory);
    }
    let seen = crew.pass.stamp;
    match answered(desk, &mut crew.pass, &ask) {
        Ok(reply) => {
            let note = Note {
                stamp: crew.pass.stamp,
                seen,
                actor: crew.pass.actor,
                ask,
                reply,
            };
            Ok(keep::<A, R>(crew, note)?)
        }
        Err(refusal) => Err(refusal),
    }
}

// All steps to the end of the turn.
fn steps<A: Actor, D: Desk>(alloc: Global, crew: &mut Crew<A>, desk: &mut D) -> Result<(), Refusal>
    requires { D.serves desk.old crew.old.pass.actor }
    ensures ok { OnOk result
        (Went A.asks A.takes crew.old crew.new (D.notes desk.old) (D.notes desk.new)) }
    ensures over { OnOk result (A.asks crew.new.member ≡ None) }
    ensures err { OnErr result
        (Stopped A.asks A.takes crew.old crew.new (D.notes desk.old) (D.notes desk.new)) }
    ensures full { result ≡ Err refusals.Stamps → IsUsedUp A.asks (D.is_full desk.new) crew.new }
    ensures few { length crew.old.list < 2 ^ 57 → length crew.new.list < 2 ^ 57 }
    ensures origin { D.origin desk.new ≡ D.origin desk.old }
    ensures root { D.root desk.new ≡ D.root desk.old }
    ensures serving { (actor : ℕ) → D.serves desk.old actor → D.serves desk.new actor }
{
    loop {
        match step::<A, D, ()>(alloc, crew, desk) {
            Ok(Some(())) => {}
            Ok(None) => return Ok(()),
            Err(refusal) => return Err(refusal),
        }
    }
}

/// The turn of an actor: it asks, and takes the reply, until it asks nothing. Each step is appended to its list, each stamp
/// being above the one before it and above that of the pass. A turn takes no lock itself: it waits only where its desk
/// does, or its gate, which it passes first.
///
/// # Errors
///
/// `Memory` where there is none for a step, and `Stamps` where the pass stands at 2^62 - 1 or more, or the desk is full for what
/// the actor asks. The steps made so far stand; the desk may have noted one more. `refused` is told which it was.
pub fn turn<A: Actor, D: Desk, G: Gate>(
    alloc: Global,
    crew: &mut Crew<A>,
    desk: &mut D,
    gate: &G,
) -> Result<(), Refusal>
    requires { D.serves desk.old crew.old.pass.actor }
    ensures ok { OnOk result
        (Went A.asks A.takes crew.old crew.new (D.notes desk.old) (D.notes desk.new)) }
    ensures over { OnOk result (A.asks crew.new.member ≡ None) }
    ensures err { OnErr result
        (Stopped A.asks A.takes crew.old crew.new (D.notes desk.old) (D.notes desk.new)) }
    ensures refused { MatchResult result (λ _. crew.new.refused ≡
        None) (λ refusal. crew.new.refused ≡ Some refusal) }
    ensures full { result ≡ Err refusals.Stamps → IsUsedUp A.asks (D.is_full desk.new) crew.new }
    ensures few { length crew.old.list < 2 ^ 57 → length crew.new.list < 2 ^ 57 }
    ensures origin { D.origin desk.new ≡ D.origin desk.old }
    ensures root { D.root desk.new ≡ D.root desk.old }
    ensures serving { (actor : ℕ) → D.serves desk.old actor → D.serves desk.new actor }
{
    gate.turn(crew.pass.actor);
    let told = steps(alloc, crew, desk);
    crew.refused = told.err();
    told
}
