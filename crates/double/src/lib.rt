// A number as a double, rounded once (document 01, "As a double", row 22). Double has the definitions, Rounded the
// proof that a double is the decimal value rounded once. Stands on `decimal`, `decimal_parts`, `refusal`.
// The rules in words: docs/FORMAT.md, "Numbers in values".
#![tactic(auto)]

ghost use Rattle.std.specs.Prelude.{◌≡◌, ◌^◌, ◌<◌};
ghost use Rattle.double.specs.Double.{exact, scaled_of, with_sign, double_from, double_of};

use decimal_parts::Decimal;
use refusal::{Refusal, Rule};

// Ten to the k, exactly. By cases: a table that is indexed would be made on the stack, all 128 bytes of it.
fn ten(k: usize) -> f64
    requires { k < 16 }
    ensures { result ≡ exact (10 ^ k) }
{
    match k {
        0 => 1.0,
        1 => 10.0,
        2 => 100.0,
        3 => 1000.0,
        4 => 10000.0,
        5 => 100000.0,
        6 => 1000000.0,
        7 => 10000000.0,
        8 => 100000000.0,
        9 => 1000000000.0,
        10 => 10000000000.0,
        11 => 100000000000.0,
        12 => 1000000000000.0,
        13 => 10000000000000.0,
        14 => 100000000000000.0,
        _ => 1000000000000000.0,
    }
}

// The coefficient, multiplied or divided once by ten to the k.
fn scaled(down: bool, c: u64, k: usize) -> f64
    requires { (c < 9007199254740992) × (k < 16) }
    ensures { result ≡ scaled_of down c k }
{
    let x = c as f64;
    if k == 0 {
        return x;
    }
    let y = ten(k);
    if down { x / y } else { x * y }
}

// "Negated last if minus."
fn with_sign(minus: bool, x: f64) -> f64
    ensures { result ≡ with_sign minus x }
{
    if minus { -x } else { x }
}

// The double of a number: up to 2^53 - 1 the coefficient, and up to 10^15 the power of ten, are doubles exactly, so the
// one operation on them is the only rounding.
pub fn double_from(n: Decimal) -> Result<f64, Refusal>
    ensures { result ≡ double_from n }
{
    let c = n.coefficient;
    let k = n.power.unsigned_abs() as usize;
    if 9007199254740991 < c || 15 < k {
        return Err(refusal::of_file(Rule::NoDouble, 0));
    }
    let x = scaled(n.power < 0, c, k);
    Ok(with_sign(n.minus, x))
}

// The double that a text is (document 01, "As a double"): its number, rounded once.
#[tactic(auto, unfolding(crate::specs::Double::double_of, crate::specs::Double::on_number))]
pub fn double(text: &[u8]) -> Result<f64, Refusal>
    ensures { result ≡ double_of text.now }
{
    double_from(decimal::number(text)?)
}
