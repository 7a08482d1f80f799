// A book, a rewriting and a witness from three files. One that cannot be read is told on standard
// error, and then there is no answer.
ghost use Rattle.std.specs.Prelude.{◌≤◌, length, IfSome};
ghost use Rattle.std.specs.Io.{ReadsAtMost};

use crate::rooms::{BOOK, REWRITING, WITNESS, print_answer};
use console::input::fill;
use console::words::{path_of, print_failure, word};
use std::env::Env;
use std::fs::{File, Files};
use std::io;
use std::io::Write;

// Reads the file of this name, as far as the room goes.
fn read_named<F: Files>(rt: &F, path: &[u8], room: &mut [u8]) -> io::Result<usize>
    ensures { ReadsAtMost result room.new }
{
    let mut file = File::open(rt, path_of(path)?)?;
    fill(&mut file, room, u64::MAX)
}

// Reads the file that an argument names, and says on standard error where that fails; answers how many
// of its bytes stand in the room.
fn read_file<R: Env + Files + Eprint>(rt: &R, argument: usize, room: &mut [u8]) -> Option<usize>
    ensures { IfSome result (λ n. n ≤ length room.new) }
{
    let mut path = [0u8; 4096];
    let n = word(rt, argument, &mut path);
    match read_named(rt, &path[..n], room) {
        Ok(read) => Some(read),
        Err(why) => {
            print_failure(rt, &path[..n], &why);
            None
        }
    }
}

pub(crate) fn judge_files<R: Env + Files + Eprint, W: Write>(
    rt: &R,
    out: &mut W,
) -> io::Result<()> {
    let mut book = [0u8; BOOK];
    let mut rewriting = [0u8; REWRITING];
    let mut witness = [0u8; WITNESS];
    let a = read_file(rt, 1, &mut book);
    let b = read_file(rt, 2, &mut rewriting);
    let c = read_file(rt, 3, &mut witness);
    match (a, b, c) {
        (Some(n), Some(k), Some(m)) => print_answer(
            out,
            checker::check(&book[..n], &rewriting[..k], &witness[..m]),
        ),
        _ => Ok(()),
    }
}
