// Timing: a book is rewritten so many times, and then a line tells the last outcome. In the stream
// two numbers of four bytes stand before each book: how often, and its length. A line is written as
// soon as it is known, so that whoever reads them can take the time of each book.
use console::{print_lengths, print_refusal};
use rewriter::rewrite;
use spec::{ANSWER_ROOM, Lengths, Refused, WITNESS_ROOM};
use std::io;
use std::io::Write;

fn once(book: &[u8]) -> Result<Lengths, Refused> {
    let mut answer = [0u8; ANSWER_ROOM];
    let mut witness = [0u8; WITNESS_ROOM];
    rewrite(book, &mut answer, &mut witness)
}

fn rewrite_times(book: &[u8], times: u64) -> Result<Lengths, Refused> {
    let mut last = once(book);
    for _ in 1..times {
        last = once(book);
    }
    last
}

pub(crate) fn print_last<W: Write>(out: &mut W, book: &[u8], times: u64) -> io::Result<()> {
    match rewrite_times(book, times) {
        Err(refused) => print_refusal(out, refused.into()),
        Ok(long) => print_lengths(out, long),
    }
}
