// The parts of a book that loads: what a reader above asks for once the book is known to be sound.
ghost use Rattle.std.specs.Prelude.{◌≡◌, ◌<◌};
ghost use Rattle.spec.specs.Contents.{entries_in, part_at};
ghost use Rattle.spec.specs.Refusals.{Loads};

use contents::fields::{length_at, offset_at};

// Entry i's own part. (`contents::entry` is the same for books that nobody has looked at.)
pub fn part_of(book: &[u8], i: usize) -> &[u8]
    requires { Loads book.now × (i < entries_in book.now) }
    ensures { result.now ≡ part_at book.now i }
{
    let offset = offset_at(book, i);
    let end = offset + length_at(book, i);
    &book[offset..end]
}
