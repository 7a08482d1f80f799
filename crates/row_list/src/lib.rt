// All summary rows of a sound book, in order, as codes.
#![tactic(auto)]

ghost use Rattle.row_list.specs.Listing.{ListNeeds, ListSays};
ghost use Rattle.row_list.specs.Placings.{SummaryTaskNeeds, PlacedRows};
ghost use Rattle.row_list.specs.Turns.{TargetNeeds, TurnNeeds, TurnSays};
ghost use Rattle.std.specs.Prelude.{length};

mod tasks; // one summary and the question as a task

use crate::tasks::{SOURCE_CODES, SOURCES, TARGET_CODES, TARGETS, put_source, put_target};
use admission::summaries::is_in;
use books::parts::part_of;
use codes::SUBGOAL_CODES;
use contents::fields::count_of;
use rule_codes::Body;
use rule_codes::places::head_count;
use summary_rows::{RowTask, rows_of};
use task::Task;

// The question as what summaries are placed on: its terms and its body as targets, in codes, and a 0 for each, since all are of one row.
#[derive(Clone, Copy)]
struct Question<'a> {
    target: &'a [u64],
    own: &'a [u8],
}

// The rows of one summary, behind those found before.
fn rows_by(
    summary: &Body,
    number: u64,
    question: &Question,
    found: usize,
    out: &mut [u64],
) -> Option<usize>
    requires { SummaryTaskNeeds summary.now.relations.now summary.now.bytes.now question.now.target.now question.now.own.now found (length out.old) }
    ensures { PlacedRows summary.now.relations.now summary.now.bytes.now question.now.target.now question.now.own.now number found out.old out.new result }
{
    let mut source = [0u64; SOURCE_CODES];
    let mut widths = [1u8; SOURCES];
    let goals = put_source(summary, &mut source, &mut widths);
    let lasts = [0u8; SOURCES];
    let task = Task {
        source: &source[..SUBGOAL_CODES * goals],
        widths: &widths[..goals],
        lasts: &lasts[..goals],
        target: question.target,
        own: question.own,
    };
    let rows = RowTask {
        task,
        head: head_count(summary.bytes),
    };
    rows_of(&rows, number, found, out)
}

// The turn of summary i: a summary that is left out adds nothing.
fn rows_at(
    book: &[u8],
    i: usize,
    question: &Question,
    found: usize,
    out: &mut [u64],
) -> Option<usize>
    requires { TurnNeeds book.now question.now.target.now question.now.own.now i found (length out.old) }
    ensures { TurnSays book.now i found out.old out.new result }
{
    if is_in(book, i) {
        let bytes = part_of(book, i + 1);
        let relations = part_of(book, 0);
        let summary = Body { bytes, relations };
        return rows_by(&summary, i as u64, question, found, out);
    }
    Some(found)
}

// The summaries in order; the 65th row ends the listing.
fn list_onto(book: &[u8], question: &Question, out: &mut [u64]) -> Option<usize>
    requires { ListNeeds book.now (length out.old) × TargetNeeds book.now question.now.target.now question.now.own.now }
    ensures { ListSays book.now out.old out.new result }
{
    let mut found = 0;
    for i in 0..count_of(book) {
        found = rows_at(book, i + 1, question, found, out)?;
    }
    Some(found)
}

// All summary rows of a sound book, nine codes each, at the front of `out`: how many, or none where there are more than 64.
pub fn list_rows(book: &[u8], out: &mut [u64]) -> Option<usize>
    requires { ListNeeds book.now (length out.old) }
    ensures { ListSays book.now out.old out.new result }
{
    let body = Body {
        bytes: part_of(book, 1),
        relations: part_of(book, 0),
    };
    let mut target = [0u64; TARGET_CODES];
    let targets = put_target(&body, &mut target);
    let own = [0u8; TARGETS];
    let question = Question {
        target: &target[..SUBGOAL_CODES * targets],
        own: &own[..targets],
    };
    list_onto(book, &question, out)
}
