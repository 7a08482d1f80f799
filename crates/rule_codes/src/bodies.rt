// A rule's body as codes and widths.
ghost use Rattle.std.specs.Prelude.{length};
ghost use Rattle.codes.specs.Code.{slot_code, term_code, subgoal_size};
ghost use Rattle.rule_codes.specs.Codes.{Base, based};
ghost use Rattle.rule_codes.specs.Bodies.{RoomFor, CodesPut, WidthsPut};

use crate::Body;
use crate::tables::base_table;
use codes::VARIABLE;

impl Body<'_> {
    // Nine codes and a width for each subgoal; the variables count from the base on.
    fn body_codes(&self, base: u64, out: &mut [u64], widths: &mut [u8]) -> usize
        requires { RoomFor self.now subgoal_size (length out.old) × RoomFor self.now 1 (length widths.old) × Base base }
        ensures { CodesPut self.now (based base) out.old out.new result × WidthsPut self.now widths.old widths.new result }
    {
        self.put_widths(widths);
        self.put_subgoals(&base_table(base), out)
    }

    // The body as a source: its variables are slots. Returns how many subgoals there are.
    pub fn slot_codes(&self, out: &mut [u64], widths: &mut [u8]) -> usize
        requires { RoomFor self.now subgoal_size (length out.old) × RoomFor self.now 1 (length widths.old) }
        ensures { CodesPut self.now slot_code out.old out.new result × WidthsPut self.now widths.old widths.new result }
    {
        self.body_codes(0, out, widths)
    }

    // The body as a target: its terms have their own codes. Returns how many subgoals there are.
    pub fn term_codes(&self, out: &mut [u64], widths: &mut [u8]) -> usize
        requires { RoomFor self.now subgoal_size (length out.old) × RoomFor self.now 1 (length widths.old) }
        ensures { CodesPut self.now term_code out.old out.new result × WidthsPut self.now widths.old widths.new result }
    {
        self.body_codes(VARIABLE, out, widths)
    }

    // How many terms each subgoal of the body has. Returns how many subgoals there are.
    pub fn body_widths(&self, widths: &mut [u8]) -> usize
        requires { RoomFor self.now 1 (length widths.old) }
        ensures { WidthsPut self.now widths.old widths.new result }
    {
        self.put_widths(widths)
    }
}
