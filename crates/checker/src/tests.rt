// What a rewriting is held to: its layout, its head, and that its summaries are admitted.
ghost use Rattle.std.specs.Prelude.{◌*◌, ◌≤◌, length};
ghost use Rattle.codes.specs.Code.{subgoal_size};
ghost use Rattle.book_codes.specs.Question.{SomeSound};
ghost use Rattle.rule_codes.specs.Laid.{Laid};
ghost use Rattle.checker.specs.Tests.{LaidOut, SameHeads, Admits, AdmitsAll};

use admission::summaries::is_in;
use codes::SUBGOAL_CODES;
use contents::fields::count_of;
use rule_codes::heads::head_codes;
use rules::{Defect, judge};
use spec::QUESTION_GOALS;

// Whether the bytes are one whole rule of 1 to 12 subgoals over summaries whose heads are so long; whether it is safe is not asked here.
pub(crate) fn is_laid_out(rewriting: &[u8], lengths: &[u8]) -> bool
    ensures { LaidOut lengths.now rewriting.now result }
{
    match judge(rewriting, lengths, QUESTION_GOALS, false) {
        Err(Defect::Broken(_)) => false,
        Ok(()) | Err(Defect::Unsafe | Defect::Repeats) => true,
    }
}

// Whether two rules have one head: the codes of its terms say which it is.
pub(crate) fn same_heads(a: &[u8], b: &[u8]) -> bool
    requires { Laid a.now × Laid b.now }
    ensures { SameHeads a.now b.now result }
{
    head_codes(a) == head_codes(b)
}

// Whether a number is that of an admitted summary: "Summaries are numbered from 1".
fn admits(book: &[u8], number: usize) -> bool
    requires { SomeSound book.now }
    ensures { Admits book.now number result }
{
    if number == 0 {
        return false;
    }
    if count_of(book) < number {
        return false;
    }
    is_in(book, number)
}

// Whether each of the first `count` rows is over an admitted summary.
pub(crate) fn all_admitted(book: &[u8], codes: &[u64], count: usize) -> bool
    requires { SomeSound book.now × (subgoal_size * count ≤ length codes.now) }
    ensures { AdmitsAll book.now codes.now count result }
{
    for i in 0..count {
        if !admits(book, codes[SUBGOAL_CODES * i] as usize) {
            return false;
        }
    }
    true
}
