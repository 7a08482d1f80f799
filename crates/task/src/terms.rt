// Terms and slots: what a term stands for, which terms are alike, and what is bound where a use starts.
ghost use Rattle.std.specs.Prelude.{◌≡◌, ◌<◌, ◌≤◌, eqb, length};
ghost use Rattle.codes.specs.Code.{most_slots};
ghost use Rattle.task.specs.Terms.{stood, noting, Opened};

use codes::{SLOTS, UNIT};
use spec::VARIABLES;

// A source term below this is a slot.
const SLOT_END: u64 = SLOTS as u64;

// Two terms are compared by tag, then by number. (Not by `==`: the specification names this way.)
pub fn alike(x: u64, y: u64) -> bool
    ensures { result ≡ eqb x y }
{
    if x / UNIT != y / UNIT {
        return false;
    }
    x % UNIT == y % UNIT
}

// What a source term stands for so far: 0 for a slot that is not bound.
// (0, not an Option: `Extends` and `solid` of specs/Task say so, and the theorems of search_meaning rest on them.)
pub fn stands(g: &[u64; SLOTS], x: u64) -> u64
    ensures { result ≡ stood g.now x }
{
    if x < SLOT_END {
        let slot = x as usize;
        return g[slot];
    }
    x
}

// The set with the term's slot, if it is one.
pub fn noted(set: u64, x: u64) -> u64
    ensures { result ≡ noting set x }
{
    if x < SLOT_END {
        return bits::add(set, x as u32);
    }
    set
}

// Where a use has ended, the next one's own variables are not bound.
pub fn opened(g: &mut [u64; SLOTS], last: u8)
    ensures { Opened last g.old g.new }
{
    if last != 0 {
        g[VARIABLES..].fill(0);
    }
}
