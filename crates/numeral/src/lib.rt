// A number answer as text for a sheet, with its own decimals (document 02 §4, and rows 20, 21 and 30). Every refusal is
// found before the first byte is written. Numeral has the definitions, Plain the same by the grammar, Returned that
// what the reader gave is written and reads back; Leading and Answers have the laws. Stands on `numeral_room`,
// `numeral_text`, `decimal_parts`, `refusal`, and on `decimal`, `digits`, `word` for laws alone.
// The rules in words: docs/FORMAT.md, "Numbers in values".
#![tactic(auto)]

ghost use Rattle.std.specs.Prelude.{◌≡◌, pos, nat_abs, length};
ghost use Rattle.std.specs.Int.Signed.{lt_z};
ghost use Rattle.numeral.specs.Numeral.{raised, numeral_answer, numeral_left};

use decimal_parts::Decimal;
use numeral_text::Raised;
use refusal::{Refusal, Rule};

// The most decimals of 18 digits, as at least one stands before the point.
const DECIMALS: u32 = 17;

// The greatest number of 18 digits.
const COEFFICIENT: u64 = 999999999999999999;

// The greatest number of 2 digits.
const FAR: u64 = 99;

// The power plus the count: any two may be given, and their sum fits 64 bits.
fn behind_e(power: i32, count: u32) -> Raised
    ensures { (result.down ≡ lt_z (raised power count) (pos 0)) × (result.far ≡ nat_abs (raised power count)) }
{
    let e = i64::from(power) + i64::from(count);
    Raised {
        down: e < 0,
        far: e.unsigned_abs(),
    }
}

// The text of a number answer, at the start of the lent bytes.
pub fn write(out: &mut [u8], n: Decimal) -> Result<usize, Refusal>
    ensures answer { result ≡ numeral_answer (length out.old) n }
    ensures left { out.new ≡ numeral_left out.old n }
{
    if n.minus & (n.coefficient == 0) {
        return Err(refusal::of_file(Rule::NoNumber, 0));
    }
    if DECIMALS < n.decimals || COEFFICIENT < n.coefficient {
        return Err(refusal::of_file(Rule::Digits, 0));
    }
    let to = behind_e(n.power, n.decimals);
    if FAR < to.far {
        return Err(refusal::of_file(Rule::Digits, 0));
    }
    numeral_room::put_fitting(out, n.minus, n.coefficient, n.decimals, to)
}
