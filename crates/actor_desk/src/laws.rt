//! What holds of every desk, as clauses of functions that do nothing.
ghost use Rattle.actor_desk.specs.Bounds.{OpenedBooksAreSmall, BooksStaySmall, BooksAnswerWithinBounds};
ghost use Rattle.actor_desk.specs.Kinds.{BooksAnswerInKind};

/// A law: what each of the six books answers is a reply that the call can have. A granted piece has bytes, no more than
/// were asked for, and as many as its places; so have the bytes that are read.
pub fn books_answer_in_kind()
    ensures { BooksAnswerInKind }
{}

/// A law: books that are opened with buffers of at most 1,048,576 octets hold small numbers, each call keeps them so, and
/// so each reply is within bounds: a place or a count is at most 2^62 + 2^20, a window at most 1,048,576, and the rows that
/// are answered to `Rate` meet the conditions of the linked increase.
pub fn books_answer_within_bounds()
    ensures opened { OpenedBooksAreSmall }
    ensures kept { BooksStaySmall }
    ensures told { BooksAnswerWithinBounds }
{}
