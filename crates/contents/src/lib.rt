// The contents of a book: loaded, or refused with 2 to 5; and each entry's own part of the book.
#![tactic(auto)]

ghost use Rattle.spec.specs.Loading.{LoadSays};
ghost use Rattle.spec.specs.EntryPart.{EntryPart};

pub mod fields; // count, offset, length and stamp, as numbers
mod gaps; // the rule of no gaps
mod relations; // entry 0
pub mod table; // the contents as records in a lent table

use crate::fields::{count_of, entries_of, length_at, offset_at};
use crate::gaps::no_gaps;
use crate::relations::right_relations;
use spec::{LONGEST_BOOK, MOST_SUMMARIES, Refused};

pub fn load(book: &[u8]) -> Result<usize, Refused>
    ensures { LoadSays book.now result }
{
    let size = book.len();
    if size < 2 || LONGEST_BOOK < size {
        return Err(Refused::Size);
    }
    let n = count_of(book);
    if MOST_SUMMARIES < n {
        return Err(Refused::Count);
    }
    let Ok(()) = no_gaps(book, n) else {
        return Err(Refused::Contents);
    };
    let Ok(()) = right_relations(book) else {
        return Err(Refused::Relations);
    };
    Ok(n)
}

// The entry's own part of the book, or the empty part at its start.
pub fn entry(book: &[u8], i: usize) -> &[u8]
    ensures { EntryPart book.entry i result }
{
    let Ok(n) = load(book) else {
        return &book[0..0];
    };
    if entries_of(n) <= i {
        return &book[0..0];
    }
    let offset = offset_at(book, i);
    let end = offset + length_at(book, i);
    &book[offset..end]
}
