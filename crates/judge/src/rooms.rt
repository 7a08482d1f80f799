// How much of each is read, and the line that tells the answer. A book, a rewriting and a witness that
// the checker says yes to have at most 25,040, 534 and 120 bytes: so one byte more is read of each, and
// what stands past that changes nothing, the answer is no.
use console::input::BOOK_ROOM;
use spec::{ANSWER_ROOM, WITNESS_ROOM};
use std::io;
use std::io::Write;

pub(crate) const BOOK: usize = BOOK_ROOM;

pub(crate) const REWRITING: usize = ANSWER_ROOM + 1;

pub(crate) const WITNESS: usize = WITNESS_ROOM + 1;

pub(crate) fn print_answer<W: Write>(out: &mut W, is_right: bool) -> io::Result<()> {
    out.write_all(if is_right { b"yes\n" } else { b"no\n" })
}
