// A book's listing, or its refusal; and answer and witness as files, for the checker.
use console::words::{path_of, print_failure, word};
use console::{print_listing, print_refusal};
use rewriter::rewrite;
use spec::{ANSWER_ROOM, Lengths, Refused, WITNESS_ROOM};
use std::env::Env;
use std::fs::Files;
use std::io::Write;
use std::{fs, io};

fn write_named<F: Files>(rt: &F, path: &[u8], bytes: &[u8]) -> io::Result<()> {
    fs::write(rt, path_of(path)?, bytes)
}

// Writes the bytes to the file that an argument names, and says on standard error where that fails.
fn write_file<R: Env + Files + Eprint>(rt: &R, argument: usize, bytes: &[u8]) {
    let mut path = [0u8; 4096];
    let n = word(rt, argument, &mut path);
    if let Err(why) = write_named(rt, &path[..n], bytes) {
        print_failure(rt, &path[..n], &why);
    }
}

// The first n bytes, or as many as there are.
fn front(bytes: &[u8], n: usize) -> &[u8] {
    bytes.get(..n).unwrap_or(bytes)
}

// The listing or the refusal.
fn print_answer<W: Write>(
    out: &mut W,
    book: &[u8],
    outcome: Result<Lengths, Refused>,
    answer: &[u8],
    witness: &[u8],
) -> io::Result<()> {
    match outcome {
        Err(refused) => print_refusal(out, refused.into()),
        Ok(long) => print_listing(
            out,
            book,
            front(answer, long.answer),
            front(witness, long.witness),
        ),
    }
}

pub(crate) fn print_outcome<W: Write>(out: &mut W, book: &[u8]) -> io::Result<()> {
    let mut answer = [0u8; ANSWER_ROOM];
    let mut witness = [0u8; WITNESS_ROOM];
    let outcome = rewrite(book, &mut answer, &mut witness);
    print_answer(out, book, outcome, &answer, &witness)
}

// The same; answer and witness are also written to the files that the second and the third word name,
// whatever became of the listing. On a refusal no file is touched.
pub(crate) fn store_outcome<R: Env + Files + Eprint, W: Write>(
    rt: &R,
    out: &mut W,
    book: &[u8],
) -> io::Result<()> {
    let mut answer = [0u8; ANSWER_ROOM];
    let mut witness = [0u8; WITNESS_ROOM];
    let outcome = rewrite(book, &mut answer, &mut witness);
    let printed = print_answer(out, book, outcome, &answer, &witness);
    let flushed = out.flush();
    if let Ok(long) = outcome {
        write_file(rt, 2, front(&answer, long.answer));
        write_file(rt, 3, front(&witness, long.witness));
    }
    printed?;
    flushed
}
