// Source subgoals are placed on targets one after the other, each guess on a copy of the bindings.
// A failure tells its reasons. Where they name no slot that this guess bound, no other target can help.
#![tactic(auto)]

ghost use Rattle.std.specs.Prelude.{◌≤◌};
ghost use Rattle.task.specs.Task.{goals};
ghost use Rattle.task.specs.Held.{task_of};
ghost use Rattle.placing.specs.FirstPlaces.{FirstPlaces, Enough};
ghost use Rattle.placing.specs.SearchAnswer.{SearchSays, PlacesFrom};

use codes::{SLOTS, USES_GOALS};
use lookahead::look;
use lookahead::reasons::{Reasons, Rows};
use task::Task;
use task::terms::{alike, noted, opened, stands};

// The places of the source subgoals, each the number of a target.
pub type Places = [u16; USES_GOALS];

// The first places, in order, of the source subgoals from `at` on; or why there are none.
// The loops over targets and terms stand in one function, so that the exit at the first unlike term is seen.
fn place(task: &Task, at: usize, b: &[u64; SLOTS], rows: Rows) -> Result<Places, Reasons>
    requires { at ≤ goals (task_of task.now) }
    ensures { SearchSays (task_of task.now) at b.now rows result }
{
    if task.widths.len() <= at {
        return Ok([0; USES_GOALS]);
    }
    look(task, at, b, rows)?;
    let mut why = Reasons {
        slots: 0,
        short: false,
    };
    'candidates: for k in 0..task.own.len() {
        if !task.is_related(at, k) {
            continue 'candidates;
        }
        let entered = match rows.enters(task.own[k]) {
            Ok(entered) => entered,
            Err(barred) => {
                why = why.shorted(barred);
                continue 'candidates;
            }
        };
        let kept = b; // the kit takes a loop that copies a parameter by its own name for one that changes it
        let mut g = *kept;
        let mut new: u64 = 0;
        for a in 0..task.width(at) {
            let x = task.source_term(at, a);
            let y = task.target_term(k, a);
            let have = stands(&g, x);
            if have == 0 {
                g[x as usize] = y;
                new = noted(new, x);
            } else if !alike(have, y) {
                why = why.blamed(x);
                continue 'candidates;
            }
        }
        opened(&mut g, task.lasts[at]);
        match place(task, at + 1, &g, entered.rows) {
            Ok(mut ks) => {
                ks[at] = k as u16;
                return Ok(ks);
            }
            Err(below) => {
                let more = below.seen(task.lasts[at]);
                if more.settled(new, entered.free) {
                    return Err(more);
                }
                why = why.joined(more);
            }
        }
    }
    Err(why)
}

// The first places from `at` on, whatever rows they lie in.
pub fn places_from(task: &Task, at: usize, b: [u64; SLOTS]) -> Option<Places>
    requires { at ≤ goals (task_of task.now) }
    ensures { PlacesFrom (task_of task.now) at b result }
{
    let rows = Rows {
        used: u64::MAX,
        may: 0,
        left: 0,
    };
    place(task, at, &b, rows).ok()
}

// The first mapping's places.
pub fn first_places(task: &Task, b: [u64; SLOTS]) -> Option<Places>
    ensures { FirstPlaces (task_of task.now) b result }
{
    places_from(task, 0, b)
}

// Whether some mapping's targets lie in the rows in use and at most `left` of those that may be taken.
pub fn enough(task: &Task, b: [u64; SLOTS], used: u64, may: u64, left: usize) -> bool
    ensures { Enough (task_of task.now) b used may left result }
{
    place(task, 0, &b, Rows { used, may, left }).is_ok()
}
