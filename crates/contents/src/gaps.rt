// "Bodies stand without gaps in entry order; the first begins at 2 + 12 × (n + 2), the last ends the book."
ghost use Rattle.std.specs.Prelude.{◌≡◌, ◌<◌};
ghost use Rattle.spec.specs.Contents.{count, NoGaps};
ghost use Rattle.spec.specs.Refusals.{Fault4};
ghost use Rattle.spec.specs.declared.Refused.TheVariants.{Contents};
ghost use Rattle.contents.specs.Entries.Steps.{StepSays};

use crate::fields::{entries_of, length_at, offset_at};
use spec::Refused;

pub fn no_gaps(book: &[u8], n: usize) -> Result<(), Refused>
    requires { (n ≡ count book.now) × (n < 65536) }
    ensures { StepSays (NoGaps book.now) (Fault4 book.now) Contents result }
{
    let entries = entries_of(n);
    let mut begin = 2 + 12 * entries;
    if book.len() < begin {
        return Err(Refused::Contents);
    }
    for i in 0..entries {
        if offset_at(book, i) != begin {
            return Err(Refused::Contents);
        }
        begin += length_at(book, i);
    }
    if begin != book.len() {
        return Err(Refused::Contents);
    }
    Ok(())
}
