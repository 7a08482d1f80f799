// Says of rewritings whether they are right by their witnesses, a line for each: `yes` or `no`.
//
//     judge BOOK REWRITING WITNESS     the three files
//     judge many                       standard input is many triples, each after its three lengths (stream.rt)
//     judge repeat                     the same, each checked several times, for timing
#![tactic(auto)]

mod files; // the three files
mod rooms; // how much of each is read
mod stream; // many triples on standard input

use crate::files::judge_files;
use crate::stream::{judge_next, judge_repeated};
use console::input::each;
use console::words::{is_there, word};
use std::io;
use std::io::Write;

fn main(rt: HostRuntime) -> io::Result<()> {
    let mut first = [0u8; 8];
    let n = word(&rt, 1, &mut first);
    let mut input = rt.reader();
    let mut out = io::writer(&rt);
    if is_there(&rt, 3) && !is_there(&rt, 4) {
        judge_files(&rt, &mut out)?;
        return out.flush();
    }
    match &first[..n] {
        b"many" => each(|| judge_next(&mut input, &mut out, 1))?,
        b"repeat" => each(|| judge_repeated(&mut input, &mut out))?,
        _ => eprintln!(rt; "usage: judge BOOK REWRITING WITNESS")?,
    }
    out.flush()
}
