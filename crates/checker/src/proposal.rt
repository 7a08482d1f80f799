// The rewriting that the checker is given, read as rows over the admitted summaries of a sound book.
ghost use Rattle.book_codes.specs.Question.{SomeSound};
ghost use Rattle.checker.specs.Proposed.{RowsReadNeeds, ProposalSays};
ghost use Rattle.checker.specs.Lengths.{HeadsNeeds};

use crate::head_lengths::head_lengths;
use crate::tests::{all_admitted, is_laid_out, same_heads};
use books::parts::part_of;
use codes::QUESTION_CODES;
use contents::fields::count_of;
use rule_codes::Body;
use spec::QUESTION_GOALS;

// The rewriting's rows, so many, nine codes each at the front and zeros behind them. (Fixed memory: no Vec.)
#[derive(Drop)]
pub struct Proposal {
    pub count: usize,
    pub codes: [u64; QUESTION_CODES],
}

// The rows of a rule that has the question's head: none if one of them is over a summary that is left out, or over none.
fn read_rows(book: &[u8], rewriting: &Body) -> Option<Proposal>
    requires { RowsReadNeeds book.now rewriting.now.bytes.now rewriting.now.relations.now }
    ensures { ProposalSays book.now rewriting.now.bytes.now result }
{
    let mut codes = [0u64; QUESTION_CODES];
    let mut widths = [0u8; QUESTION_GOALS];
    let count = rewriting.term_codes(&mut codes, &mut widths);
    if all_admitted(book, &codes, count) {
        return Some(Proposal { count, codes });
    }
    None
}

// "one whole rule by the layout with 1 to 12 subgoals over admitted summaries and the question's head": a summary stands where a relation would, as wide as its head.
fn propose_over(book: &[u8], rewriting: &[u8], lengths: &[u8]) -> Option<Proposal>
    requires { SomeSound book.now × HeadsNeeds book.now lengths.now }
    ensures { ProposalSays book.now rewriting.now result }
{
    if !is_laid_out(rewriting, lengths) {
        return None;
    }
    if !same_heads(rewriting, part_of(book, 1)) {
        return None;
    }
    let body = Body {
        bytes: rewriting,
        relations: lengths,
    };
    read_rows(book, &body)
}

// The rows of the rewriting; none exactly if it is no rule over the book's admitted summaries that has the question's head.
pub fn propose(book: &[u8], rewriting: &[u8]) -> Option<Proposal>
    requires { SomeSound book.now }
    ensures { ProposalSays book.now rewriting.now result }
{
    let table = head_lengths(book);
    let n = count_of(book);
    propose_over(book, rewriting, &table[..n + 1])
}
