// Entry 0 of a book: "Relations: 1 to 32 bytes, each an arity 1 to 8", with stamp 0.
ghost use Rattle.spec.specs.BookLayout.{Arities};
ghost use Rattle.spec.specs.Contents.{NoGaps, RightRelations};
ghost use Rattle.spec.specs.Refusals.{Fault5};
ghost use Rattle.spec.specs.declared.Refused.TheVariants.{Relations};
ghost use Rattle.contents.specs.Entries.Steps.{StepSays};

use crate::fields::{length_at, offset_at, stamp_at};
use spec::{MOST_ARITY, MOST_RELATIONS, Refused};

const LEAST_ARITY: u8 = 1;

const WIDEST: u8 = MOST_ARITY as u8;

fn right_arities(part: &[u8]) -> Result<(), Refused>
    ensures { StepSays (Arities part.now) (Arities part.now → ⊥) Relations result }
{
    let many = part.len();
    if many < 1 || MOST_RELATIONS < many {
        return Err(Refused::Relations);
    }
    if part
        .iter()
        .any(|arity| *arity < LEAST_ARITY || WIDEST < *arity)
    {
        return Err(Refused::Relations);
    }
    Ok(())
}

pub fn right_relations(book: &[u8]) -> Result<(), Refused>
    requires { NoGaps book.now }
    ensures { StepSays (RightRelations book.now) (Fault5 book.now) Relations result }
{
    if stamp_at(book, 0) != 0 {
        return Err(Refused::Relations);
    }
    let offset = offset_at(book, 0);
    let end = offset + length_at(book, 0);
    right_arities(&book[offset..end])
}
