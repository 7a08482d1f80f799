// The first lines of a listing: the need, and each summary's lead.
ghost use Rattle.std.specs.Prelude.{◌≤◌};
ghost use Rattle.spec.specs.Refusals.{Loads};
ghost use Rattle.spec.specs.Contents.{count};

use crate::text::{end_line, print_after, print_text};
use admission::{lead_of, size_of};
use contents::fields::stamp_at;
use contents::load;
use std::io;
use std::io::Write;

fn print_lead<W: Write>(out: &mut W, lead: Option<i32>) -> io::Result<()> {
    match lead {
        None => print_text(out, " lead none"),
        Some(by) if by < 0 => print_after(out, " lead -", size_of(by)),
        Some(by) => print_after(out, " lead ", size_of(by)),
    }
}

// One line: a summary, counted from 1, and its lead, or none. The stamp of entry 1, the question, is the need.
fn print_view<W: Write>(out: &mut W, book: &[u8], summary: usize) -> io::Result<()>
    requires { Loads book.now × (summary ≤ count book.now) }
{
    print_after(out, "view ", summary as u64)?;
    print_lead(out, lead_of(stamp_at(book, 1), stamp_at(book, summary + 1)))?;
    end_line(out)
}

// Nothing where the contents do not load.
pub(crate) fn print_leads<W: Write>(out: &mut W, book: &[u8]) -> io::Result<()> {
    let Ok(n) = load(book) else {
        return Ok(());
    };
    print_after(out, "need ", stamp_at(book, 1) as u64)?;
    end_line(out)?;
    for i in 0..n {
        print_view(out, book, i + 1)?;
    }
    Ok(())
}
