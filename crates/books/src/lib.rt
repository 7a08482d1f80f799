// A whole book of bytes: sound, or refused with 2 to 8.
#![tactic(auto)]

ghost use Rattle.std.specs.Prelude.{◌≡◌, ◌<◌};
ghost use Rattle.spec.specs.Contents.{count, entries_in, part_at};
ghost use Rattle.spec.specs.Refusals.{Loads, most_at, of_entry};
ghost use Rattle.spec.specs.Told.{told_of};
ghost use Rattle.rules.specs.Judged.{Judged, refusal_number};
ghost use Rattle.spec.specs.Reading.{ReadingSays, ToldSays, c_answer};
ghost use Rattle.books.specs.Entries.{summary_at};

pub mod parts; // entries of a book that loads

use crate::parts::part_of;
use contents::fields::{entries_of, length_at, offset_at};
use rules::Defect;
use spec::{QUESTION_GOALS, Reason, Refused, SUMMARY_GOALS};

// How many subgoals the rule of an entry may have: entry 1 is the question.
fn most_at(i: usize) -> usize
    ensures { result ≡ most_at i }
{
    if i <= 1 {
        QUESTION_GOALS
    } else {
        SUMMARY_GOALS
    }
}

// The refusal of a book whose entry i has a defect.
fn refusal_of(defect: Defect, i: usize) -> Refused
    ensures { told_of result ≡ of_entry (refusal_number defect) i }
{
    match defect {
        Defect::Broken(_) => Refused::Layout(i),
        Defect::Unsafe => Refused::Unsafe(i),
        Defect::Repeats => Refused::Repeats(i),
    }
}

// Entry i, a rule, judged on its own part of the book.
fn judge_entry(book: &[u8], i: usize) -> Result<(), Defect>
    requires { Loads book.now × (i < entries_in book.now) }
    ensures { Judged (part_at book.now 0) (most_at i) (summary_at i) (part_at book.now i) result }
{
    let offset = offset_at(book, i);
    let length = length_at(book, i);
    rules::judge(
        &book[offset..offset + length],
        part_of(book, 0),
        most_at(i),
        1 < i,
    )
}

// The rules, entry by entry; the first fault ends the reading.
fn read_rules(book: &[u8], n: usize) -> Result<(), Refused>
    requires { Loads book.now × (n ≡ count book.now) }
    ensures { ReadingSays book.now result }
{
    let all = entries_of(n);
    for i in 1..all {
        let verdict = judge_entry(book, i);
        let Ok(()) = verdict else {
            return Err(refusal_of(verdict.unwrap_err(), i));
        };
    }
    Ok(())
}

// Every book of bytes: "1 to 5, then entry by entry 6, 7, 8".
pub fn read_book(book: &[u8]) -> Result<(), Refused>
    ensures { ReadingSays book.now result }
{
    let n = contents::load(book)?;
    read_rules(book, n)
}

// The same for callers in C, who have no Result: this match is where its two cases become one value.
fn tell(reading: Result<(), Refused>) -> Reason
    ensures { result ≡ c_answer reading }
{
    match reading {
        Ok(()) => Reason {
            number: 0,
            place: 0,
        },
        Err(refused) => refused.into(),
    }
}

#[unsafe(no_mangle)]
pub extern "C" fn tunesatchel_read_book(book: &[u8]) -> Reason
    ensures { ToldSays book.now result }
{
    tell(read_book(book))
}
