// A rewriting written as bytes: the question's head, and rows from the codes that the search has them in.
ghost use Rattle.std.specs.Prelude.{◌≡◌, ◌+◌, ◌*◌, ◌≤◌, length};
ghost use Rattle.std.proofs.lemmas.List.Edits.{sets};
ghost use Rattle.spec.specs.BookLayout.{most_arity};
ghost use Rattle.answer.specs.Bytes.{tag_of, code_bytes, codes_bytes, row_bytes, rows_bytes, RowsStand, rewriting_bytes, RuleBytesNeeds};

use codes::{CONSTANT, SUBGOAL_CODES, UNIT};

// 0 for a variable's code, 1 for a constant's.
fn tag_byte(code: u64) -> u8
    ensures { result ≡ tag_of code }
{
    if code < CONSTANT { 0 } else { 1 }
}

// A term: its tag, then its number in four bytes.
fn put_term(out: &mut [u8], at: usize, code: u64)
    requires { at + 5 ≤ length out.old }
    ensures { out.new ≡ sets out.old at (code_bytes code) }
{
    let number = (code % UNIT) as u32;
    out[at] = tag_byte(code);
    out[at + 1..at + 5].copy_from_slice(&number.to_le_bytes());
}

// Terms, one after the other.
fn put_terms(out: &mut [u8], at: usize, codes: &[u64])
    requires { at + 5 * length codes.now ≤ length out.old }
    ensures { out.new ≡ sets out.old at (codes_bytes codes.now) }
{
    for (i, code) in codes.iter().enumerate() {
        put_term(out, at + 5 * i, *code);
    }
}

// A row: its summary's number, then its terms.
fn put_row(out: &mut [u8], at: usize, row: &[u64], wide: usize)
    requires { (at + 1 + 5 * wide ≤ length out.old) × (1 + wide ≤ length row.now) }
    ensures { out.new ≡ sets out.old at (row_bytes row.now wide) }
{
    out[at] = (row[0] % 256) as u8;
    put_terms(out, at + 1, &row[1..1 + wide]);
}

// Rows, one after the other, by their codes and widths; answers the place behind them.
fn put_rows(out: &mut [u8], at: usize, codes: &[u64], widths: &[u8]) -> usize
    requires { RowsStand codes.now widths.now × (at + (1 + 5 * most_arity) * length widths.now ≤ length out.old) }
    ensures { (out.new ≡ sets out.old at (rows_bytes codes.now widths.now)) × (result ≡ at + length (rows_bytes codes.now widths.now)) }
{
    let mut end = at;
    for (row, wide) in codes.chunks_exact(SUBGOAL_CODES).zip(widths) {
        let wide = usize::from(*wide);
        put_row(out, end, row, wide);
        end += 1 + 5 * wide;
    }
    end
}

// A rewriting: the head's length and terms are those of the question's bytes, the subgoals are rows, by their codes and widths.
pub fn put_rule(out: &mut [u8], body: &[u8], codes: &[u64], widths: &[u8]) -> usize
    requires { RuleBytesNeeds out.old body.now codes.now widths.now }
    ensures { (out.new ≡ sets out.old 0 (rewriting_bytes body.now codes.now widths.now)) × (result ≡ length (rewriting_bytes body.now codes.now widths.now)) }
{
    let head_end = 2 + 5 * usize::from(body[0]);
    out[0] = body[0];
    out[1] = widths.len() as u8;
    out[2..head_end].copy_from_slice(&body[2..head_end]);
    put_rows(out, head_end, codes, widths)
}
