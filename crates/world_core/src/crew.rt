//! One step of an actor with the books.

ghost use Rattle.std.specs.Prelude.{◌≡◌, ◌^◌, ◌<◌, length, false, IfOk, OnOk, OnErr, option_map};
ghost use Rattle.path_core.specs.Octets.{octets};
ghost use Rattle.world_core.specs.Steps.{GoesUp, note_if, crew_if, books_if};
ghost use Rattle.world_laws.specs.Actors.{member_asks, is_over};

use crate::member::{Crew, Member};
use actor_desk::Books;
use actor_turn::Report;
use stamped_book::Refusal;
use std::alloc::Global;

/// One step of the actor, and what is wanted of its note; nothing where its turn ended, and then nothing changes. Where there is
/// no memory the books may have an entry more, and the actor's pass the stamp of it; its list and the actor itself are as before.
pub(crate) fn step<R: Report + Drop>(
    alloc: Global,
    crew: &mut Crew,
    books: &mut Books,
) -> Result<Option<R>, Refusal>
    ensures report { IfOk result (λ report. report ≡
        option_map R.of (note_if (member_asks octets crew.old.member) books.old crew.old.pass)) }
    ensures crew { OnOk result (crew.new ≡
        crew_if (member_asks octets crew.old.member) books.old crew.old) }
    ensures books { OnOk result (books.new ≡
        books_if (member_asks octets crew.old.member) crew.old.pass books.old) }
    ensures rises { OnOk result (is_over crew.old.member ≡ false →
        GoesUp crew.old.pass.stamp crew.new.pass.stamp) }
    ensures few { OnOk result (length crew.old.list < 2 ^ 57 → length crew.new.list < 2 ^ 57) }
    ensures member_err { OnErr result (crew.new.member ≡ crew.old.member) }
    ensures list_err { OnErr result (crew.new.list ≡ crew.old.list) }
{
    actor_turn::step::<Member, Books, R>(alloc, crew, books)
}
