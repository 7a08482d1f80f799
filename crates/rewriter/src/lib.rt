// A book of bytes rewritten: the answer and its witness in two lent areas, or the refusal.
#![tactic(auto)]

ghost use Rattle.std.specs.Prelude.{length};
ghost use Rattle.spec.specs.Rewriting.{Rewriting};
ghost use Rattle.book_codes.specs.OfRows.{of_rows};
ghost use Rattle.rewriter.specs.Steps.{SoundNeeds, ListedNeeds};

use answer::put_chosen;
use book_codes::uses::BookRows;
use books::read_book;
use codes::ROWS_CODES;
use row_choice::choose_rows;
use row_list::list_rows;
use spec::{ANSWER_ROOM, Lengths, Refused, WITNESS_ROOM};

// Over all rows: 10 where no list of them will do.
fn rewrite_rows(rows: &BookRows, answer: &mut [u8], witness: &mut [u8]) -> Result<Lengths, Refused>
    requires { of_rows ListedNeeds rows.now (length answer.old) (length witness.old) }
    ensures { Rewriting rows.now.book.now answer.old answer.new witness.old witness.new result }
{
    let Some(chosen) = choose_rows(rows) else {
        return Err(Refused::NoRewriting);
    };
    Ok(put_chosen(rows, chosen, answer, witness))
}

// A sound book: 9 where there are more than 64 rows.
fn rewrite_sound(book: &[u8], answer: &mut [u8], witness: &mut [u8]) -> Result<Lengths, Refused>
    requires { SoundNeeds book.now (length answer.old) (length witness.old) }
    ensures { Rewriting book.now answer.old answer.new witness.old witness.new result }
{
    let mut codes = [0u64; ROWS_CODES];
    let Some(count) = list_rows(book, &mut codes) else {
        return Err(Refused::Rows);
    };
    let rows = BookRows {
        book,
        codes: &codes,
        count,
    };
    rewrite_rows(&rows, answer, witness)
}

// Every book of bytes: its answer and witness, or its refusal.
pub fn rewrite(book: &[u8], answer: &mut [u8], witness: &mut [u8]) -> Result<Lengths, Refused>
    ensures { Rewriting book.now answer.old answer.new witness.old witness.new result }
{
    if answer.len() < ANSWER_ROOM {
        return Err(Refused::Room);
    }
    if witness.len() < WITNESS_ROOM {
        return Err(Refused::Room);
    }
    read_book(book)?;
    rewrite_sound(book, answer, witness)
}
