// One row's use: the body of its summary in its place.
ghost use Rattle.std.specs.Prelude.{◌≡◌, ℕ, ◌+◌, ◌<◌, ◌≤◌, length, get_or, drop};
ghost use Rattle.spec.specs.Contents.{part_at};
ghost use Rattle.spec.specs.Table.{most_rows};
ghost use Rattle.spec.specs.BookLayout.{summary_most};
ghost use Rattle.codes.specs.Code.{own_code, own_slot, kept_slot, summary_codes};
ghost use Rattle.book_codes.specs.RowGiven.{RowGiven};
ghost use Rattle.book_codes.specs.OneUse.{OneUse, OneCount, OneWidths};

use books::parts::part_of;
use rule_codes::Body;
use rule_codes::places::goal_count;

// What a row's use is made from: its summary, and the codes of the row's terms.
#[derive(Clone, Copy)]
struct RowParts<'a> {
    summary: Body<'a>,
    terms: &'a [u64],
}

// The summary is that of the row's number: "entry i + 1 summary i".
fn row_parts<'a>(book: &'a [u8], row: &'a [u64]) -> RowParts<'a>
    requires { RowGiven book.now row.now }
    ensures summary { result.summary.bytes.now ≡ part_at book.now (get_or row.now 0 0 + 1) }
    ensures relations { result.summary.relations.now ≡ part_at book.now 0 }
    ensures terms { result.terms.now ≡ drop 1 row.now }
{
    let summary = Body {
        bytes: part_of(book, row[0] as usize + 1),
        relations: part_of(book, 0),
    };
    RowParts {
        summary,
        terms: &row[1..],
    }
}

// As a target, numbered u: its own variables are apart from every other use's. Returns how many subgoals there are.
pub fn own_use(book: &[u8], row: &[u64], u: u64, out: &mut [u64]) -> usize
    requires { RowGiven book.now row.now × (u < most_rows) × (summary_codes ≤ length out.old) }
    ensures { OneUse book.now row.now own_code u out.old out.new result }
{
    let parts = row_parts(book, row);
    parts.summary.own_codes(parts.terms, u, out)
}

// How many subgoals it has.
pub fn use_count(book: &[u8], row: &[u64]) -> usize
    requires { RowGiven book.now row.now }
    ensures { OneCount book.now row.now result }
{
    goal_count(row_parts(book, row).summary.bytes)
}

// As a source: the list's variables and its own are slots apart from each other. Returns how many subgoals there are.
pub fn slot_use(book: &[u8], row: &[u64], out: &mut [u64], widths: &mut [u8]) -> usize
    requires { RowGiven book.now row.now × (summary_codes ≤ length out.old) × (summary_most ≤ length widths.old) }
    ensures { ((u : ℕ) → OneUse book.now row.now own_slot u out.old out.new result) × OneWidths book.now row.now widths.old widths.new }
{
    let parts = row_parts(book, row);
    parts.summary.body_widths(widths);
    parts.summary.own_slots(parts.terms, out)
}

// As a source that keeps the row's terms: only its own variables are slots. Returns how many subgoals there are.
pub fn kept_use(book: &[u8], row: &[u64], out: &mut [u64], widths: &mut [u8]) -> usize
    requires { RowGiven book.now row.now × (summary_codes ≤ length out.old) × (summary_most ≤ length widths.old) }
    ensures { ((u : ℕ) → OneUse book.now row.now kept_slot u out.old out.new result) × OneWidths book.now row.now widths.old widths.new }
{
    let parts = row_parts(book, row);
    parts.summary.body_widths(widths);
    parts.summary.kept_slots(parts.terms, out)
}
