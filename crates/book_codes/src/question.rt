// The question of a sound book as codes.
ghost use Rattle.std.specs.Prelude.{◌≡◌, ◌≤◌, length};
ghost use Rattle.spec.specs.BookLayout.{question_most};
ghost use Rattle.spec.specs.Contents.{part_at};
ghost use Rattle.codes.specs.Code.{question_codes};
ghost use Rattle.book_codes.specs.Question.{SomeSound, QuestionSource, QuestionTarget, QuestionBound};

use books::parts::part_of;
use codes::SLOTS;
use rule_codes::Body;
use rule_codes::heads::head_bindings;
use spec::QUESTION_GOALS;

// The question's bytes, over the relations.
fn question_body(book: &[u8]) -> Body<'_>
    requires { SomeSound book.now }
    ensures bytes { result.bytes.now ≡ part_at book.now 1 }
    ensures relations { result.relations.now ≡ part_at book.now 0 }
{
    Body {
        bytes: part_of(book, 1),
        relations: part_of(book, 0),
    }
}

// As a source: nine codes and a width for each subgoal. Returns how many there are.
pub fn question_source(book: &[u8], out: &mut [u64], widths: &mut [u8]) -> usize
    requires { SomeSound book.now × (question_codes ≤ length out.old) × (question_most ≤ length widths.old) }
    ensures { QuestionSource book.now out.old out.new widths.old widths.new result }
{
    question_body(book).slot_codes(out, widths)
}

// As a target: nine codes for each subgoal. Returns how many there are.
pub fn question_target(book: &[u8], out: &mut [u64]) -> usize
    requires { SomeSound book.now × (question_codes ≤ length out.old) }
    ensures { QuestionTarget book.now out.old out.new result }
{
    let mut widths = [0u8; QUESTION_GOALS];
    question_body(book).term_codes(out, &mut widths)
}

// "head to head place by place": each variable of the head is bound to itself.
pub fn question_bindings(book: &[u8]) -> [u64; SLOTS]
    requires { SomeSound book.now }
    ensures { QuestionBound book.now result }
{
    head_bindings(part_of(book, 1))
}
