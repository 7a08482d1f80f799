// Whether a summary of a sound book is admitted.
ghost use Rattle.admission.specs.Admission.{HasSummary, AdmissionSays};

use crate::is_admitted;
use contents::fields::stamp_at;

// Whether summary i, counted from 1, is admitted.
pub fn is_in(book: &[u8], i: usize) -> bool
    requires { HasSummary book.now i }
    ensures { AdmissionSays book.now i result }
{
    let need = stamp_at(book, 1);
    let stamp = stamp_at(book, i + 1);
    is_admitted(need, stamp)
}
