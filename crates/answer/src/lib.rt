// The chosen rows of a sound book as the bytes of answer and witness, in two lent areas.
#![tactic(auto)]

ghost use Rattle.std.specs.Prelude.{length};
ghost use Rattle.spec.specs.Rewriting.{Accepted};
ghost use Rattle.book_codes.specs.OfRows.{of_rows};
ghost use Rattle.answer.specs.Steps.{PutNeeds, AnswerNeeds};

mod picked; // the chosen rows, out of the codes of all
mod rule_bytes; // a rewriting as bytes

use crate::picked::pick;
use crate::rule_bytes::put_rule;
use book_codes::uses::BookRows;
use books::parts::part_of;
use codes::{QUESTION_CODES, SUBGOAL_CODES};
use first_shortest::Chosen;
use spec::{Lengths, QUESTION_GOALS};
use witness::back::put_back;
use witness::there::put_there;

// The witness's two parts, then the answer: rows, by their codes and widths.
fn put_all(
    book: &[u8],
    codes: &[u64],
    widths: &[u8],
    answer: &mut [u8],
    witness: &mut [u8],
) -> Lengths
    requires { PutNeeds book.now codes.now widths.now (length answer.old) (length witness.old) }
    ensures { Accepted book.now answer.old answer.new witness.old witness.new result.answer result.witness }
{
    let rows = BookRows {
        book,
        codes,
        count: widths.len(),
    };
    let there = put_there(&rows, witness);
    let back = put_back(&rows, witness, there);
    let long = put_rule(answer, part_of(book, 1), codes, widths);
    Lengths {
        answer: long,
        witness: there + back,
    }
}

// The rows chosen, written.
pub fn put_chosen(rows: &BookRows, chosen: Chosen, answer: &mut [u8], witness: &mut [u8]) -> Lengths
    requires { of_rows AnswerNeeds rows.now chosen (length answer.old) (length witness.old) }
    ensures { Accepted rows.now.book.now answer.old answer.new witness.old witness.new result.answer result.witness }
{
    let k = chosen.k;
    let mut codes = [0u64; QUESTION_CODES];
    let mut widths = [0u8; QUESTION_GOALS];
    let codes = &mut codes[..SUBGOAL_CODES * k];
    let widths = &mut widths[..k];
    pick(rows.codes, &chosen.rows[..k], codes, widths);
    put_all(rows.book, codes, widths, answer, witness)
}
