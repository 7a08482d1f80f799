// Many books on standard input, each after its size.
ghost use Rattle.std.specs.Prelude.{◌≡◌, true, ◌≤◌, List, ℕ, take, length, IfOk, OnOk, IfErr, IfSome};
ghost use Rattle.std.specs.Fn.{FnOnceReturnsAt};
ghost use Rattle.std.specs.Io.{ReadsAtMost};
ghost use Rattle.std.specs.Io.KnownBytes.{Consumes};
ghost use Rattle.console.specs.Books.{BookRead, book_room, SizeRead};

use spec::LONGEST_BOOK;
use std::io;
use std::io::{ErrorKind, Read, Write};

// Room for a book: one byte more than the longest sound one. What a book has past that changes nothing, it is refused with 2.
pub const BOOK_ROOM: usize = LONGEST_BOOK + 1;

// One after the other, as long as there is one; answers the first error.
// A proved loop has to end, and nothing says that the input does: no input uses up so many turns.
pub fn each<F: FnMut() -> io::Result<bool>>(mut next: F) -> io::Result<()>
    requires { F.IsAlwaysCallable next }
    ensures { IfErr result (λ e. (f : _) × (f' : _) × F.step f (Err e) f') }
{
    for _ in 0..u64::MAX {
        if !next()? {
            break;
        }
    }
    Ok(())
}

// The one book that the input is, given to what prints of it.
pub fn one_book<R: Read, F: FnOnce(&[u8]) -> io::Result<()>>(
    input: &mut R,
    print: F,
) -> io::Result<()>
    requires { F.IsAlwaysCallable print }
    ensures { OnOk result ((book : List ℕ) × (length book ≤ book_room) × Consumes (R.remaining input.old) (R.remaining input.new) book × FnOnceReturnsAt F.FnOnce print book result) }
{
    let mut book = [0u8; BOOK_ROOM];
    let n = fill(input, &mut book, u64::MAX)?;
    print(&book[..n])
}

// The next of many books, given to what prints of it; answers whether there was one. What is printed is written as soon as it is known.
pub fn next_book<R: Read, W: Write, F: FnOnce(&mut W, &[u8]) -> io::Result<()>>(
    input: &mut R,
    out: &mut W,
    print: F,
) -> io::Result<bool>
    requires { F.IsAlwaysCallable print }
    ensures { IfOk result (λ more. more ≡ true → (book : _) × (before : _) × (after : _) × BookRead (R.remaining input.old) book.now × F.post print before book (Ok tt) after) }
{
    let Some(size) = size(input)? else {
        return Ok(false);
    };
    let size = u64::from(size);
    let mut book = [0u8; BOOK_ROOM];
    let n = fill(input, &mut book, size)?;
    print(out, &book[..n])?;
    out.flush()?;
    pass(input, size - n as u64)?;
    Ok(true)
}

// The size that stands before the next book, or none where the input ends.
pub fn size<R: Read>(input: &mut R) -> io::Result<Option<u32>>
    ensures { IfOk result (λ r. IfSome r (SizeRead (R.remaining input.old) (R.remaining input.new))) }
{
    let mut b = [0u8; 4];
    if fill_room(input, &mut b)? < b.len() {
        return Ok(None);
    }
    Ok(Some(u32::from_le_bytes(b)))
}

// Reads as many bytes as are wanted, fit and come; answers how many.
pub fn fill<R: Read>(input: &mut R, room: &mut [u8], wanted: u64) -> io::Result<usize>
    ensures front { ReadsAtMost result room.new }
    ensures wanted { IfOk result (λ n. n ≤ wanted) }
    ensures came { IfOk result (λ n. Consumes (R.remaining input.old) (R.remaining input.new) (take n room.new)) }
{
    if wanted < room.len() as u64 {
        let n = wanted as usize;
        fill_room(input, &mut room[..n])
    } else {
        fill_room(input, room)
    }
}

// Passes over so many bytes, or over what is left of the input.
pub fn pass<R: Read>(input: &mut R, bytes: u64) -> io::Result<()> {
    io::copy(&mut input.by_ref().take(bytes), &mut io::sink())?;
    Ok(())
}

// Reads until the room is full or the input ends; answers how many bytes stand in it.
fn fill_room<R: Read>(input: &mut R, room: &mut [u8]) -> io::Result<usize>
    ensures front { ReadsAtMost result room.new }
    ensures came { IfOk result (λ n. Consumes (R.remaining input.old) (R.remaining input.new) (take n room.new)) }
{
    let mut filled = 0;
    // A proved loop has to end, and nothing says that the input does: no input uses up so many turns.
    for _ in 0..u64::MAX {
        if filled == room.len() {
            break;
        }
        match input.read(&mut room[filled..]) {
            Ok(0) => break,
            Ok(came) => filled += came,
            Err(error) => {
                // A signal came before the first byte: the read is tried again.
                if error.kind() != ErrorKind::Interrupted {
                    return Err(error);
                }
            }
        }
    }
    Ok(filled)
}
