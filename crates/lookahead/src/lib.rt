// Before a subgoal is placed: whether that is seen to be in vain.
// Each subgoal of the same use wants a row with a target that it may still become. Where no row has one, or where more rows are wanted than are left, no target need be tried.
#![tactic(auto)]

ghost use Rattle.std.specs.Prelude.{◌≡◌, true, ◌↔◌, ◌*◌, ◌<◌, ◌≤◌};
ghost use Rattle.codes.specs.Code.{uses_goals};
ghost use Rattle.task.specs.Task.{goals, targets};
ghost use Rattle.task.specs.Held.{task_of};
ghost use Rattle.lookahead.specs.Outlook.{UseEnd, MayBecome, Offered, Offers, SlotsOf, Steady, Wanting, Most};
ghost use Rattle.lookahead.specs.Seen.{LookSays};

pub mod reasons; // rows that are entered, reasons of a failure

use crate::reasons::{Reasons, Rows};
use codes::{SLOTS, USES_GOALS};
use spec::MOST_ROWS;
use task::Task;
use task::terms::{alike, noted, stands};

// Of the subgoals that want a row not yet in use: how many, how many of them each row has a target for, and their slots.
#[derive(Drop)]
struct Wants {
    many: u64,
    served: [u64; MOST_ROWS],
    slots: u64,
}

impl Wants {
    // One more wants a row, and these have a target for it.
    fn count(&mut self, rows: u64, slots: u64)
        requires { Steady self.old }
        ensures { Wanting self.old rows slots self.new }
    {
        for (x, many) in self.served.iter_mut().enumerate() {
            *many += u64::from(bits::holds(rows, x as u32));
        }
        self.many += 1;
        self.slots = slots;
    }
}

// Past the subgoals of the same use: the next one's own variables are others.
fn use_end(lasts: &[u8], at: usize) -> usize
    ensures { UseEnd lasts.now at result }
{
    for i in at..lasts.len() {
        if lasts[i] != 0 {
            return i + 1;
        }
    }
    lasts.len()
}

// Whether the term may still become the code: it is not bound, or to that.
fn may_become(b: &[u64; SLOTS], x: u64, y: u64) -> bool
    ensures { (result ≡ true) ↔ MayBecome b.now x y }
{
    let have = stands(b, x);
    have == 0 || alike(have, y)
}

// Whether the target k lies in an allowed row and is one that the source subgoal i may still become.
fn offered(task: &Task, b: &[u64; SLOTS], allowed: u64, i: usize, k: usize) -> bool
    requires i_in_bounds { i < goals (task_of task.now) }
    requires k_in_bounds { k < targets (task_of task.now) }
    ensures { Offered (task_of task.now) b.now allowed i k result }
{
    if !bits::holds(allowed, task.own[k] as u32) {
        return false;
    }
    if !task.is_related(i, k) {
        return false;
    }
    for a in 0..task.width(i) {
        if !may_become(b, task.source_term(i, a), task.target_term(k, a)) {
            return false;
        }
    }
    true
}

// The allowed rows that have a target for the source subgoal i. Where one of them is in use, that is enough.
fn offers(task: &Task, b: &[u64; SLOTS], used: u64, allowed: u64, i: usize) -> u64
    requires { i < goals (task_of task.now) }
    ensures { Offers (task_of task.now) b.now used allowed i result }
{
    let mut rows: u64 = 0;
    for (k, row) in task.own.iter().enumerate() {
        if !offered(task, b, allowed, i, k) {
            continue;
        }
        rows = bits::add(rows, *row as u32);
        if bits::holds(used, *row as u32) {
            return rows;
        }
    }
    rows
}

// The set with the slots of the source subgoal i.
fn slots_of(task: &Task, i: usize, set: u64) -> u64
    requires { i < goals (task_of task.now) }
    ensures { SlotsOf (task_of task.now) i set result }
{
    let mut slots = set;
    for a in 0..task.width(i) {
        slots = noted(slots, task.source_term(i, a));
    }
    slots
}

// The most that one row has a target for.
fn most(served: &[u64; MOST_ROWS]) -> u64
    ensures { Most served.now result }
{
    served.iter().copied().max().unwrap_or(0)
}

// Whether so many are more than the rows left can have targets for, where each has at most so many.
fn beyond(many: u64, left: usize, each: u64) -> bool
    requires many_le_uses_goals { many ≤ uses_goals }
    requires each_le_uses_goals { each ≤ uses_goals }
    ensures { (result ≡ true) ↔ (left * each < many) }
{
    (left.min(USES_GOALS) as u64) * each < many
}

// What is seen of the source subgoal `at` and the others of its use: that it is in vain, and then why, or nothing.
// Where no row may be taken this is not worth its time: a subgoal that wants one fails as soon as it is tried.
pub fn look(task: &Task, at: usize, b: &[u64; SLOTS], rows: Rows) -> Result<(), Reasons>
    ensures { LookSays (task_of task.now) at b.now rows result }
{
    if rows.may == 0 {
        return Ok(());
    }
    let allowed = bits::join(rows.used, rows.may);
    let mut w = Wants {
        many: 0,
        served: [0u64; MOST_ROWS],
        slots: 0,
    };
    for i in at..use_end(task.lasts, at) {
        let with = offers(task, b, rows.used, allowed, i);
        if with == 0 {
            return Err(Reasons {
                slots: slots_of(task, i, 0),
                short: false,
            });
        }
        if bits::meets(with, rows.used) {
            continue;
        }
        let slots = slots_of(task, i, w.slots);
        w.count(with, slots);
    }
    if beyond(w.many, rows.left, most(&w.served)) {
        return Err(Reasons {
            slots: w.slots,
            short: true,
        });
    }
    Ok(())
}
