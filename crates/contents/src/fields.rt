// What stands in the contents, as numbers: the count, and each entry's offset, length and stamp.
ghost use Rattle.std.specs.Prelude.{◌≡◌, ◌+◌, ◌*◌, ◌≤◌, ◌<◌, length};
ghost use Rattle.spec.specs.BookLayout.{entries};
ghost use Rattle.spec.specs.Contents.{count, offset_at, length_at, stamp_at};

use numbers::{u16_at, u32_at};

pub fn count_of(book: &[u8]) -> usize
    requires { 2 ≤ length book.now }
    ensures { result ≡ count book.now }
{
    u16_at(book, 0) as usize
}

// How many entries a book of n summaries has.
pub fn entries_of(n: usize) -> usize
    requires { n < 65536 }
    ensures { result ≡ entries n }
{
    n + 2
}

// Entry i's twelve bytes have to be there: in a book that loads they are, for every entry that it has (`loads-room`).
// The three are one line each; a reader that takes the place within the entry would be no plainer.
pub fn offset_at(book: &[u8], i: usize) -> usize
    requires { 14 + 12 * i ≤ length book.now }
    ensures { (result ≡ offset_at book.now i) × (result < 4294967296) }
{
    u32_at(book, 2 + 12 * i) as usize
}

pub fn length_at(book: &[u8], i: usize) -> usize
    requires { 14 + 12 * i ≤ length book.now }
    ensures { (result ≡ length_at book.now i) × (result < 4294967296) }
{
    u32_at(book, 6 + 12 * i) as usize
}

pub fn stamp_at(book: &[u8], i: usize) -> u32
    requires { 14 + 12 * i ≤ length book.now }
    ensures { result ≡ stamp_at book.now i }
{
    u32_at(book, 10 + 12 * i)
}
