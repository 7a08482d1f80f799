// The subgoals of a rewriting, a line each.
ghost use Rattle.std.specs.Prelude.{◌≤◌};

use crate::bytes::{byte_at, count_at, number_at};
use crate::text::{end_line, print_after, print_number};
use contents::entry;
use std::io;
use std::io::Write;

// A term, five bytes: `v` and a variable's number, or `c` and a constant.
fn print_term<W: Write>(out: &mut W, rule: &[u8], at: usize) -> io::Result<()>
    requires { at ≤ 900000 }
{
    let number = number_at(rule, at + 1) as u64;
    if byte_at(rule, at) == 0 {
        print_after(out, " v", number)
    } else {
        print_after(out, " c", number)
    }
}

// A subgoal's line: its summary's number, then its terms.
fn print_subgoal<W: Write>(out: &mut W, rule: &[u8], at: usize, terms: usize) -> io::Result<()>
    requires at_bound { at ≤ 800000 }
    requires terms_bound { terms ≤ 255 }
{
    print_number(out, byte_at(rule, at) as u64)?;
    for i in 0..terms {
        print_term(out, rule, at + 1 + 5 * i)?;
    }
    end_line(out)
}

// How many terms the head of a summary has.
fn head_of(book: &[u8], summary: usize) -> usize
    requires { summary ≤ 255 }
    ensures { result ≤ 255 }
{
    count_at(entry(book, summary + 1), 0)
}

// The subgoals of the answer: they stand behind its two counts and its head.
pub(crate) fn print_rewriting<W: Write>(out: &mut W, book: &[u8], answer: &[u8]) -> io::Result<()> {
    let subgoals = count_at(answer, 1);
    print_after(out, "rewriting ", subgoals as u64)?;
    end_line(out)?;
    let mut at = 2 + 5 * count_at(answer, 0);
    for _ in 0..subgoals {
        let terms = head_of(book, count_at(answer, at));
        print_subgoal(out, answer, at, terms)?;
        at += 1 + 5 * terms;
    }
    Ok(())
}
