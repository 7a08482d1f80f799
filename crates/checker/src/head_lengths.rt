// How long the heads of a sound book's summaries are.
ghost use Rattle.admission.specs.Admission.{HasSummary};
ghost use Rattle.book_codes.specs.Question.{SomeSound};
ghost use Rattle.spec.specs.Contents.{count};
ghost use Rattle.checker.specs.Lengths.{HeadAt, HeadsTo};

use books::parts::part_of;
use contents::fields::count_of;
use rule_codes::places::head_count;
use spec::MOST_SUMMARIES;

// The head of summary i, counted from 1: "entry i + 1 summary i".
fn head_at(book: &[u8], i: usize) -> u8
    requires { HasSummary book.now i }
    ensures { HeadAt book.now i result }
{
    head_count(part_of(book, i + 1)) as u8
}

// Entry i of the table is the length of the head of summary i; entry 0 is 0, since "Summaries are numbered from 1".
pub(crate) fn head_lengths(book: &[u8]) -> [u8; MOST_SUMMARIES + 1]
    requires { SomeSound book.now }
    ensures { HeadsTo book.now (count book.now) result }
{
    let n = count_of(book);
    let mut table = [0u8; MOST_SUMMARIES + 1];
    for i in 0..n {
        table[i + 1] = head_at(book, i + 1);
    }
    table
}
