// The chosen rows, out of the codes of all rows.
ghost use Rattle.std.specs.Prelude.{◌≡◌, length};
ghost use Rattle.answer.specs.Picked.{PickNeeds, picked_codes, width_in, picked_widths};

use codes::{NONE, SUBGOAL_CODES};

// How many of a row's terms there are: a code of 1 stands where they have ended.
fn width_in(terms: &[u64]) -> usize
    ensures { result ≡ width_in terms.now }
{
    terms.iter().take_while(|code| **code != NONE).count()
}

// The codes and the widths of the rows picked, by their numbers.
pub(crate) fn pick(codes: &[u64], rows: &[u8], out: &mut [u64], widths: &mut [u8])
    requires { PickNeeds codes.now rows.now (length out.old) (length widths.old) }
    ensures { (out.new ≡ picked_codes codes.now rows.now) × (widths.new ≡ picked_widths codes.now rows.now) }
{
    for (i, r) in rows.iter().enumerate() {
        let from = SUBGOAL_CODES * usize::from(*r);
        let row = &codes[from..from + SUBGOAL_CODES];
        let to = SUBGOAL_CODES * i;
        out[to..to + SUBGOAL_CODES].copy_from_slice(row);
        widths[i] = width_in(&row[1..]) as u8;
    }
}
