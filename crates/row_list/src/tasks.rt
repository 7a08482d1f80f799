// One summary and the question's body as a task of the search, in codes: its mappings give the summary's rows.
ghost use Rattle.std.specs.Prelude.{◌≡◌, ◌*◌, ◌≤◌, length, replicate};
ghost use Rattle.spec.specs.BookLayout.{Arities, question_most};
ghost use Rattle.spec.specs.Given.{at_front};
ghost use Rattle.codes.specs.Code.{subgoal_size};
ghost use Rattle.rule_codes.specs.Bodies.{goals_of};
ghost use Rattle.row_list.specs.Alone.{alone_codes};
ghost use Rattle.row_list.specs.Tasks.{source_most, target_most, SomeSummary, HeadSlots, SourceCodes, TargetCodes};

use codes::{NONE, QUESTION_CODES, SUBGOAL_CODES};
use numbers::u32_at;
use rule_codes::Body;
use rule_codes::places::head_count;
use spec::{MOST_ARITY, MOST_HEAD, QUESTION_GOALS, SUMMARY_GOALS};

// The relation of a head's places and of the terms that they are placed on: no rule's, since relations are numbered from 0 and there are at most 32.
const HEAD: u64 = 255;

// A source has a place for each term of a summary's head, and its subgoals.
pub const SOURCES: usize = MOST_HEAD + SUMMARY_GOALS;

pub const SOURCE_CODES: usize = SUBGOAL_CODES * SOURCES;

// A target has each term of the question, and its subgoals.
pub const TARGETS: usize = MOST_ARITY * QUESTION_GOALS + QUESTION_GOALS;

pub const TARGET_CODES: usize = SUBGOAL_CODES * TARGETS;

// A subgoal of one term for each of the codes, at the front of `out`.
fn put_alone(codes: &[u64], out: &mut [u64])
    requires { subgoal_size * length codes.now ≤ length out.old }
    ensures { out.new ≡ at_front (alone_codes codes.now) out.old }
{
    for (k, code) in codes.iter().enumerate() {
        let mut subgoal = [NONE; SUBGOAL_CODES];
        subgoal[0] = HEAD;
        subgoal[1] = *code;
        let at = SUBGOAL_CODES * k;
        out[at..at + SUBGOAL_CODES].copy_from_slice(&subgoal);
    }
}

// The slots of a summary's head: its variables' numbers.
fn head_slots(summary: &Body) -> [u64; MOST_HEAD]
    requires { SomeSummary summary.now.relations.now summary.now.bytes.now }
    ensures { HeadSlots summary.now.bytes.now result }
{
    let mut slots = [0u64; MOST_HEAD];
    for i in 0..head_count(summary.bytes) {
        slots[i] = u64::from(u32_at(summary.bytes, 3 + 5 * i));
    }
    slots
}

// The source: the head's places, then the body. Its codes and widths stand at the front of what is lent; a head's place has one term, which the widths
// say from the start. Returns how many source subgoals there are.
pub fn put_source(summary: &Body, source: &mut [u64], widths: &mut [u8]) -> usize
    requires { SomeSummary summary.now.relations.now summary.now.bytes.now × (subgoal_size * source_most ≤ length source.old) × (widths.old ≡ replicate source_most 1) }
    ensures { SourceCodes summary.now.relations.now summary.now.bytes.now source.old source.new widths.old widths.new result }
{
    let heads = head_count(summary.bytes);
    let slots = head_slots(summary);
    put_alone(&slots[..heads], source);
    heads + summary.slot_codes(&mut source[SUBGOAL_CODES * heads..], &mut widths[heads..])
}

// The target: the question's terms in ascending order, then its body. Returns how many targets there are.
pub fn put_target(question: &Body, target: &mut [u64]) -> usize
    requires { Arities question.now.relations.now × (goals_of question.now ≤ question_most) × (subgoal_size * target_most ≤ length target.old) }
    ensures { TargetCodes question.now.relations.now question.now.bytes.now target.old target.new result }
{
    let mut terms = [0u64; QUESTION_CODES];
    let count = question.body_terms(&mut terms);
    put_alone(&terms[..count], target);
    let mut widths = [0u8; QUESTION_GOALS];
    count + question.term_codes(&mut target[SUBGOAL_CODES * count..], &mut widths)
}
