// One use of a summary: its body's codes in place of a summary subgoal.
ghost use Rattle.std.specs.Prelude.{ℕ, ◌<◌, length};
ghost use Rattle.spec.specs.Table.{most_rows};
ghost use Rattle.codes.specs.Code.{own_code, own_slot, kept_slot, subgoal_size};
ghost use Rattle.rule_codes.specs.Codes.{Base, based_use};
ghost use Rattle.rule_codes.specs.Bodies.{RoomFor, UsedBy, UsePut};

use crate::Body;
use crate::tables::use_table;
use codes::{FRESH, VARIABLE};
use spec::VARIABLES;

// Each use has as many variables of its own; as slots they stand behind the shared ones.
const OWN: u64 = VARIABLES as u64;

impl Body<'_> {
    // The list's variables count from one base, the use's own from another.
    fn use_codes(&self, row: &[u64], olds: u64, base: u64, out: &mut [u64]) -> usize
        requires { UsedBy self.now row.now × RoomFor self.now subgoal_size (length out.old) × Base olds × Base base }
        ensures { (u : ℕ) → UsePut self.now row.now (based_use olds base) u out.old out.new result }
    {
        let table = use_table(self.bytes, row, olds, base);
        self.put_subgoals(&table, out)
    }

    // Use u as a target: the row's terms as they are, and the use's own variables apart from every other use's. Returns how many subgoals there are.
    pub fn own_codes(&self, row: &[u64], u: u64, out: &mut [u64]) -> usize
        requires { UsedBy self.now row.now × RoomFor self.now subgoal_size (length out.old) × (u < most_rows) }
        ensures { UsePut self.now row.now own_code u out.old out.new result }
    {
        self.use_codes(row, VARIABLE, FRESH + OWN * u, out)
    }

    // A use as a source: the list's variables are slots 0 to 31, the use's own 32 to 63.
    pub fn own_slots(&self, row: &[u64], out: &mut [u64]) -> usize
        requires { UsedBy self.now row.now × RoomFor self.now subgoal_size (length out.old) }
        ensures { (u : ℕ) → UsePut self.now row.now own_slot u out.old out.new result }
    {
        self.use_codes(row, 0, OWN, out)
    }

    // A use as a source that keeps the list's terms: only the use's own variables are slots.
    pub fn kept_slots(&self, row: &[u64], out: &mut [u64]) -> usize
        requires { UsedBy self.now row.now × RoomFor self.now subgoal_size (length out.old) }
        ensures { (u : ℕ) → UsePut self.now row.now kept_slot u out.old out.new result }
    {
        self.use_codes(row, VARIABLE, 0, out)
    }
}
