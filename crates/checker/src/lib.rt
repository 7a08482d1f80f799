// The checker: a book, a rewriting and a witness, each as bytes. It writes nothing, and searches for nothing.
#![tactic(auto)]

ghost use Rattle.book_codes.specs.Question.{SomeSound};
ghost use Rattle.book_codes.specs.FewRows.{FewRows};
ghost use Rattle.book_codes.specs.OfRows.{of_rows};
ghost use Rattle.spec.specs.Truth.{Checks};
ghost use Rattle.checker.specs.Steps.{QuestionGoals, ConfirmSays};

mod head_lengths; // how long the summaries' heads are
mod proposal; // the rewriting that is given, read as rows
mod tests; // layout, head, admission

use crate::proposal::propose;
use book_codes::uses::BookRows;
use books::parts::part_of;
use books::read_book;
use rule_codes::places::goal_count;
use witness_check::back::comes_back;
use witness_check::there::goes_there;

// How many subgoals the question of a sound book has.
fn question_goals(book: &[u8]) -> usize
    requires { SomeSound book.now }
    ensures { QuestionGoals book.now result }
{
    goal_count(part_of(book, 1))
}

// The witness of the rows: "per question subgoal, two bytes", and behind them the way back.
fn confirms(rows: &BookRows, witness: &[u8]) -> bool
    requires { of_rows FewRows rows.now }
    ensures { of_rows ConfirmSays rows.now witness.now result }
{
    let middle = 2 * question_goals(rows.book);
    if witness.len() < middle {
        return false; // too short for the way there
    }
    if !goes_there(rows, &witness[..middle]) {
        return false; // no mapping there
    }
    comes_back(rows, &witness[middle..])
}

// Over a sound book.
fn check_sound(book: &[u8], rewriting: &[u8], witness: &[u8]) -> bool
    requires { SomeSound book.now }
    ensures { Checks book.now rewriting.now witness.now result }
{
    let Some(proposal) = propose(book, rewriting) else {
        return false; // no rewriting of this book's question
    };
    let rows = BookRows {
        book,
        codes: &proposal.codes,
        count: proposal.count,
    };
    confirms(&rows, witness)
}

// Every three of bytes: yes exactly if the rewriting is one of the book's question and the witness is its two mappings.
pub fn check(book: &[u8], rewriting: &[u8], witness: &[u8]) -> bool
    ensures { Checks book.now rewriting.now witness.now result }
{
    match read_book(book) {
        Err(_) => false,
        Ok(()) => check_sound(book, rewriting, witness),
    }
}
