// The parts of a number and the answer for them: sign, coefficient and power of ten, unless there are too many digits
// (document 01, "Numbers in values", row 21). Grammar has the parts and the text that they write, Answer the answer.
// Stands on `decimal_power`, `front_bytes`, `digits`, `chars`, `word`, `refusal`.
// The rules in words: docs/FORMAT.md, "Numbers in values".
#![tactic(auto)]

ghost use Rattle.std.specs.Prelude.{◌≡◌, ◌+◌, ◌≤◌, length};
ghost use Rattle.decimal_parts.specs.Answer.{parts_are, decimal_of, judged};

use refusal::{Refusal, Rule};

// The answer to the number question: sign, coefficient as written and power of ten; zero has sign plus; and how many
// digits stood after the point (document 02 §4). (It is no `Number`: a struct and a function of one module may not
// differ only in the case of their letters.)
#[derive(Clone, Copy)]
pub struct Decimal {
    pub minus: bool,
    pub coefficient: u64,
    pub power: i32,
    pub decimals: u32,
}

// The number that the parts of a text make. Their digits are few enough: the coefficient fits 64 bits.
fn made(minus: bool, whole: &[u8], decimals: &[u8], down: bool, exponent: &[u8]) -> Decimal
    requires { (length whole.now + length decimals.now ≤ 18) × (length exponent.now ≤ 2) }
    ensures { result ≡ decimal_of (parts_are minus whole.now decimals.now down
        exponent.now) }
{
    let w = digits::value(0, whole);
    let c = digits::value(w, decimals);
    let e = digits::value(0, exponent) as u32;
    let n = decimals.len() as u32;
    Decimal {
        minus: minus & (0 < c),
        coefficient: c,
        power: decimal_power::power(down, e, n),
        decimals: n,
    }
}

// The answer for the parts of a text that the grammar writes: a number, unless it has more than 18 digits before E,
// leading zeros counted, or more than 2 after it. The counts are compared one by one, so that no sum of them can wrap.
pub fn judged(
    minus: bool,
    whole: &[u8],
    decimals: &[u8],
    down: bool,
    exponent: &[u8],
) -> Result<Decimal, Refusal>
    ensures { result ≡ judged (parts_are minus whole.now decimals.now down
        exponent.now) }
{
    if 18 < whole.len() || 18 - whole.len() < decimals.len() || 2 < exponent.len() {
        return Err(refusal::of_file(Rule::Digits, 0));
    }
    Ok(made(minus, whole, decimals, down, exponent))
}
