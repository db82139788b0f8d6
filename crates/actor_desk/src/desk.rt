//! Who takes an actor's calls.
ghost use Rattle.std.specs.Prelude.{◌≡◌, ℕ, false, List, Option, IfOk, OnOk, OnErr};
ghost use Rattle.stamped_book.specs.declared.stamped.Refusal.TheVariants as refusals;
ghost use Rattle.stamped_book.specs.declared.stamped.Pass.{Pass};
ghost use Rattle.actor_desk.specs.declared.ask.Ask.{Ask};
ghost use Rattle.actor_desk.specs.declared.ask.Reply.{Reply};
ghost use Rattle.actor_desk.specs.Bounds.{IsBounded};
ghost use Rattle.actor_desk.specs.Desk.{SixBooks};
ghost use Rattle.actor_desk.specs.Journals.{is_local};
ghost use Rattle.actor_desk.specs.Kinds.{CanBeAsked, IsOfKind};
ghost use Rattle.actor_desk.specs.Noted.{BookNotes, Rises, note_of, noted};

use crate::ask::{Ask, Reply};
use stamped_book::{Pass, Refusal};

/// Who takes the calls of actors at the six books of a connection, and answers them.
pub trait Desk {
    /// The desk serves the actor of this number.
    ghost serves: { Self → ℕ → Type 0 };

    /// No stamp below 2^62 is left for this ask with this pass.
    ghost is_full: { Self → Ask → Pass → Type 0 };

    /// The notes of all calls at each book; none where others ask the same books.
    ghost notes: { Self → Option BookNotes };

    /// What is so of a call that was answered: the desk and the pass, each before and after it, what was asked, and the reply.
    ghost answers: { Self → Self → Pass → Pass → Ask → Reply → Type 0 };

    /// The books that the six were opened with.
    ghost origin: { Self → SixBooks };

    /// The names of the table that the seat came from; none of a desk that came from none.
    ghost root: { Self → List ℕ };

    /// Asks a book. The reply is of the asked kind and within bounds, and the pass has the stamp of the call. After a
    /// refusal the pass and the desk's notes are as before.
    fn call(&mut self, pass: &mut Pass, ask: &Ask) -> Result<Reply, Refusal>
        requires book { is_local ask.now ≡ false }
        requires conditions { CanBeAsked ask.now }
        requires serves { serves self.old pass.old.actor }
        ensures kind { IfOk result (λ reply. IsOfKind ask.now reply) }
        ensures bounds { IfOk result (λ reply. IsBounded ask.now reply) }
        ensures rises { OnOk result (Rises pass.old pass.new) }
        ensures answers { IfOk result (λ reply.
            answers self.old self.new pass.old pass.new ask.now reply) }
        ensures notes { IfOk result (λ reply. notes self.new ≡
            noted (notes self.old) (note_of pass.old pass.new ask.now reply)) }
        ensures origin { origin self.new ≡ origin self.old }
        ensures root { root self.new ≡ root self.old }
        ensures serving { (actor : ℕ) → serves self.old actor → serves self.new actor }
        ensures full { result ≡ Err refusals.Stamps → is_full self.new ask.now pass.old }
        ensures err { OnErr result (notes self.new ≡ notes self.old) }
        ensures pass_err { OnErr result (pass.new ≡ pass.old) };
}
