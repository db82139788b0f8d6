//! What holds of the six journals of any books.
ghost use Rattle.stamped_book.specs.Journal.{IsJournal};
ghost use Rattle.journal_weave.specs.Journals.{AreJournals, JournalsRise};

use actor_desk::Books;
use stamped_book::{Book, Stamped, stamps_rise};

/// What the calls of a book's journal were answered, and their stamps, are those of the book.
fn is_journal<O: Book>(book: &Stamped<O>)
    ensures { IsJournal O.reply_to O.after book.now.opening 0 book.now.journal }
{
    // For the proof: its journal is one of this book.
    let _journal = book.journal();
}

/// What the calls of all six journals were answered, and their stamps, are those of the books.
pub(crate) fn are_journals(books: &Books)
    ensures { AreJournals books.now }
{
    is_journal(&books.send_a);
    is_journal(&books.send_b);
    is_journal(&books.reassembly_a);
    is_journal(&books.reassembly_b);
    is_journal(&books.control_a);
    is_journal(&books.control_b);
}

/// Stamps rise in each.
pub(crate) fn journals_rise(books: &Books)
    ensures { JournalsRise books.now }
{
    stamps_rise(&books.send_a);
    stamps_rise(&books.send_b);
    stamps_rise(&books.reassembly_a);
    stamps_rise(&books.reassembly_b);
    stamps_rise(&books.control_a);
    stamps_rise(&books.control_b);
}
