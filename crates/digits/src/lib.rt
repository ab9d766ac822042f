// Digits: what they mean (document 01, "Numbers in values"), and a number written in decimal. Value, Digits and
// LastDigits have the definitions, and the laws that say that a number that was written means itself. Stands on
// `chars` and `word`, for laws alone.
// The rules in words: docs/FORMAT.md, "Numbers in values".
#![tactic(auto)]

ghost use Rattle.std.specs.Prelude.{◌≡◌, ◌≤◌, ◌<◌, length};
ghost use Rattle.word.specs.Wrote as piece;
ghost use Rattle.digits.specs.Value.{worth, value, Room};
ghost use Rattle.digits.specs.Digits.{digits};
ghost use Rattle.digits.specs.LastDigits.{last_digits};

// What a digit is worth: less than ten, so that the sums that it goes into fit.
#[tactic(auto, unfolding(crate::specs::Value::worth))]
pub fn worth(b: u8) -> u64
    ensures { (result ≡ worth b) × (result < 10) }
{
    if b.is_ascii_digit() {
        u64::from(b - b'0')
    } else {
        0
    }
}

// v with the digits of a text behind it: at most 18 in all.
pub fn value(v: u64, s: &[u8]) -> u64
    requires { Room v (length s.now) }
    ensures { result ≡ value v s.now }
{
    let mut w = v;
    for b in s {
        w = w * 10 + worth(*b);
    }
    w
}

// The last k digits, from the last to the first.
pub fn put_last(out: &mut [u8], at: usize, c: u64, k: usize) -> usize
    requires { piece.Room out.old at (last_digits k c) }
    ensures { piece.Wrote out.old at (last_digits k c) result out.new }
{
    let mut left = c;
    for i in (0..k).rev() {
        out[at + i] = b'0' + (left % 10) as u8;
        left /= 10;
    }
    at + k
}

// How many digits a number has; no number of 64 bits has more than 20. Not by `ilog10`, which indexes a constant array.
pub fn digit_count(n: u64) -> usize
    ensures { (result ≡ length (digits n)) × (result ≤ 20) }
{
    let mut left = n;
    let mut k: usize = 1;
    while 10 <= left {
        left /= 10;
        k += 1;
    }
    k
}

// A number in decimal. Its digits are counted first and stored where they belong: gathered in a row and copied they
// would be a call of C's `memcpy`.
pub fn put_digits(out: &mut [u8], at: usize, n: u64) -> usize
    requires { piece.Room out.old at (digits n) }
    ensures { piece.Wrote out.old at (digits n) result out.new }
{
    put_last(out, at, n, digit_count(n))
}
