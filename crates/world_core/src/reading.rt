//! What the readers have read.

ghost use Rattle.std.specs.Prelude.{◌≡◌, ◌++◌, drop, IfOk, OnOk};
ghost use Rattle.stream_apps.specs.AppSteps.{bytes_in};
ghost use Rattle.world_core.specs.Weaving.{made_at};
ghost use Rattle.world_laws.specs.Outcomes.{notes_at, read_by};

use crate::weaving::notes_from;
use crate::world::World;
use actor_desk::{Note, Reply};
use octet_text::{JoinedText, Text};
use reassembly_book::ReassemblyReply;
use std::alloc::{AllocError, Global};

/// The octets that steps of a reader have read.
fn read_by(alloc: Global, notes: &[Note]) -> Result<Text, AllocError>
    ensures { IfOk result (λ text. text ≡ read_by notes.now) }
{
    let mut text = Text::new(alloc);
    for note in notes {
        put_read_by(&mut text, &note.reply)?;
    }
    Ok(text)
}

/// Puts octets at the end of a text.
fn put_octets(text: &mut Text, octets: &JoinedText) -> Result<(), AllocError>
    ensures { OnOk result (text.new ≡ text.old ++ octets.now) }
{
    let copied = octets.to_text()?;
    if text.is_empty() {
        *text = copied;
        Ok(())
    } else {
        text.append(copied.as_bytes())
    }
}

/// Puts the octets that a reply gave, if it gave any, at the end of a text.
fn put_read_by(text: &mut Text, reply: &Reply) -> Result<(), AllocError>
    ensures { OnOk result (text.new ≡ text.old ++ bytes_in reply.now) }
{
    match reply {
        Reply::Reassembly(ReassemblyReply::Bytes(bytes)) => put_octets(text, bytes),
        _ => Ok(()),
    }
}

/// The octets that an actor has read since the actors had made so many steps.
pub fn read_since(
    alloc: Global,
    world: &World,
    made: &[usize],
    actor: u8,
) -> Result<Text, AllocError>
    ensures { IfOk result (λ text. text ≡ read_by
        (drop (made_at actor made.now) (notes_at actor world.now.state.crew))) }
{
    let from = match made.get(usize::from(actor)) {
        Some(made) => *made,
        None => 0,
    };
    read_by(alloc, notes_from(world.notes(actor), from))
}
