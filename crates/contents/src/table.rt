// The contents of a book as records: a lent table of entry records, filled, or left as it was and the refusal told.
ghost use Rattle.std.specs.Prelude.{◌≡◌, ◌+◌, ◌*◌, ◌≤◌, length};
ghost use Rattle.spec.specs.TableLoading.{LoadingSays, record_at};

use crate::fields::{entries_of, length_at, offset_at, stamp_at};
use crate::load;
use spec::{Entry, Refused, TABLE_ROOM};

// The record of entry i, whose twelve bytes have to be there.
fn record_at(book: &[u8], i: usize) -> Entry
    requires { 14 + 12 * i ≤ length book.now }
    ensures { result ≡ record_at book.now i }
{
    Entry {
        offset: offset_at(book, i) as u32,
        length: length_at(book, i) as u32,
        stamp: stamp_at(book, i),
    }
}

// The loader: the one function over the lent table, whose room is tested before the book.
pub fn load_table(book: &[u8], table: &mut [Entry]) -> Result<usize, Refused>
    ensures { LoadingSays book.now table.old table.new result }
{
    if table.len() < TABLE_ROOM {
        return Err(Refused::Room);
    }
    let n = load(book)?;
    let many = entries_of(n);
    for (i, record) in table[..many].iter_mut().enumerate() {
        *record = record_at(book, i);
    }
    Ok(n)
}
