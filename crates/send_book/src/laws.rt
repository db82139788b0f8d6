ghost use Rattle.std.specs.Prelude.{◌≡◌, ◌≤◌, ℕ, Bool, true, false, List};
ghost use Rattle.send_book.specs.declared.call.SendCall.{SendCall};
ghost use Rattle.send_book.specs.declared.call.SendCall.TheVariants.{Grant};
ghost use Rattle.send_book.specs.declared.call.SendReply.TheVariants.{Granted};
ghost use Rattle.send_book.specs.declared.call.Span.{Span};
ghost use Rattle.send_book.specs.State.{Sending, Tile};
ghost use Rattle.send_book.specs.Steps.{reply_to};
ghost use Rattle.send_book.specs.Laws.{after_calls, times_granted, IsAckedAt, is_grant, IsPieceOf};

/// A law: over every list of calls a byte is granted to a path at most once.
pub fn granted_at_most_once()
    ensures { (calls : List SendCall) (b : Sending) (path place : ℕ) →
        times_granted path place calls b ≤ 1 }
{}

/// A law: what was acknowledged stays so, whatever is called.
pub fn acknowledged_stays()
    ensures { (calls : List SendCall) (b : Sending) (place : ℕ) → IsAckedAt place b →
        IsAckedAt place (after_calls calls b) }
{}

/// A law: after an abort nothing is granted, whatever was called since.
pub fn nothing_after_an_abort()
    ensures { (calls : List SendCall) (call : SendCall) (b : Sending) → b.aborted ≡ true
        → is_grant (reply_to (after_calls calls b) call) ≡ false }
{}

/// A law: what is granted has as many bytes as the span has places, at least one, and no more than were asked for.
pub fn granted_pieces_are_whole()
    ensures { (b : Sending) (path max : ℕ) (standby : Bool) (span : Span) (piece : List ℕ) →
        Tile b → 1 ≤ max
        → reply_to b (Grant path max standby) ≡ Granted span piece → IsPieceOf span piece max }
{}
