// Tables of the codes of a rule's variables, 0 to 31.
ghost use Rattle.rule_codes.specs.Codes.{Base};
ghost use Rattle.rule_codes.specs.Laid.{SomeUse};
ghost use Rattle.rule_codes.specs.Tables.{BaseTable, TermCode, OldCode, UseTable};

use crate::places::head_count;
use codes::{CONSTANT, VARIABLE};
use spec::VARIABLES;

// The variables count from the base on.
pub fn base_table(base: u64) -> [u64; VARIABLES]
    requires { Base base }
    ensures { BaseTable base 32 result }
{
    std::array::from_fn(|x| base + x as u64)
}

// A term's code where variables count from another base.
fn old_code(code: u64, olds: u64) -> u64
    requires { TermCode code × Base olds }
    ensures { OldCode olds code result }
{
    if code < CONSTANT {
        return code - VARIABLE + olds;
    }
    code
}

// The codes of a summary's variables in one use: those of its head have the row's terms, the others count from the base on.
pub fn use_table(body: &[u8], row: &[u64], olds: u64, base: u64) -> [u64; VARIABLES]
    requires { SomeUse body.now row.now × Base olds × Base base }
    ensures { UseTable body.now row.now olds base result }
{
    let mut table = base_table(base);
    for i in (0..head_count(body)).rev() {
        let x = numbers::u32_at(body, 3 + 5 * i) as usize;
        table[x] = old_code(row[i], olds);
    }
    table
}
