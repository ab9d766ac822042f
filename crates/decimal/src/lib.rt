// Numbers in values: a text as sign, coefficient and power of ten (document 01, "Numbers in values", rows 20 and 21).
// Number has the walk and decimal_parts/Grammar the rule, proved equal in Agreed; Meaning says what the answer is worth,
// Marks what is never a number. Stands on `decimal_parts`, `front_bytes`, `digits`, `chars`,
// `word`, `refusal`.
// The rules in words: docs/FORMAT.md, "Numbers in values".
#![tactic(auto)]

ghost use Rattle.std.specs.Prelude.{◌≡◌, Err};
ghost use Rattle.decimal.specs.Number.{no_number, tail_of, number_in};

use chars::Kind;
use decimal_parts::Decimal;
use refusal::{Refusal, Rule};

// Refusal 20: no number. The place of a lone number is 0.
fn no_number() -> Refusal
    ensures { Err result ≡ no_number }
{
    refusal::of_file(Rule::NoNumber, 0)
}

// The answer once the digits before E are found: behind them stands the tail, nothing or E with its digits.
fn tail(minus: bool, whole: &[u8], decimals: &[u8], x: &[u8]) -> Result<Decimal, Refusal>
    ensures { result ≡ tail_of minus whole.now decimals.now x.now }
{
    let e = front_bytes::has(x, b'E');
    if (0 < x.len()) & !e {
        return Err(no_number());
    }
    let z = front_bytes::past(x, b'E');
    let y = front_bytes::past(z, b'-');
    let n = chars::run(Kind::Digit, y);
    if e & (n == 0) {
        return Err(no_number());
    }
    let rest = front_bytes::behind(y, n);
    let more = !rest.is_empty();
    if more {
        return Err(no_number());
    }
    decimal_parts::judged(
        minus,
        whole,
        decimals,
        front_bytes::has(z, b'-'),
        front_bytes::front(y, n),
    )
}

// The number that a text is (document 01, "Numbers in values"): a comma, a plus, a space and any other byte end the
// reading, and what is left then makes it no number.
pub fn number(text: &[u8]) -> Result<Decimal, Refusal>
    ensures { result ≡ number_in text.now }
{
    let s = front_bytes::past(text, b'-');
    let n = chars::run(Kind::Digit, s);
    if n == 0 {
        return Err(no_number());
    }
    let u = front_bytes::behind(s, n);
    let point = front_bytes::has(u, b'.');
    let v = front_bytes::past(u, b'.');
    let m = chars::run(Kind::Digit, v);
    if point & (m == 0) {
        return Err(no_number());
    }
    tail(
        front_bytes::has(text, b'-'),
        front_bytes::front(s, n),
        front_bytes::front(v, m),
        front_bytes::behind(v, m),
    )
}
