// The text of a number stored, with its own decimals (document 02 §4): sign, digits, point, power. NumeralText has the
// definitions, Stored the laws. Stands on `digits`, `word`.
// The rules in words: docs/FORMAT.md, "Numbers in values".
#![tactic(auto)]

ghost use Rattle.std.specs.Prelude.{◌≡◌, ◌^◌, ◌/◌};
ghost use Rattle.word.specs.Wrote.{Room, Wrote};
ghost use Rattle.digits.specs.LastDigits.{last_digits};
ghost use Rattle.numeral_text.specs.NumeralText.{unless_zero, parts_with, sign_text, point_text, power_text, spelling};

// The power behind E: whether it is below 0, and how far from 0.
#[derive(Clone, Copy)]
pub struct Raised {
    pub down: bool,
    pub far: u64,
}

// What stands before the last k digits. By ten each time, as a division by a power of ten that is worked out takes longer.
pub fn before_last(c: u64, k: u32) -> u64
    ensures { result ≡ c / 10 ^ k }
{
    let mut left = c;
    for _ in 0..k {
        left /= 10;
    }
    left
}

fn put_sign(out: &mut [u8], at: usize, minus: bool) -> usize
    requires { Room out.old at (sign_text minus) }
    ensures { Wrote out.old at (sign_text minus) result out.new }
{
    if minus {
        out[at] = b'-';
        return at + 1;
    }
    at
}

// A point with the last k digits, or nothing where k is 0.
fn put_point(out: &mut [u8], at: usize, c: u64, k: usize) -> usize
    requires { Room out.old at (point_text (last_digits k c)) }
    ensures { Wrote out.old at (point_text (last_digits k c)) result out.new }
{
    if k < 1 {
        return at;
    }
    out[at] = b'.';
    digits::put_last(out, at + 1, c, k)
}

// E, a minus or nothing, and the digits, or nothing where they would mean 0.
fn put_power(out: &mut [u8], at: usize, down: bool, far: u64) -> usize
    requires { Room out.old at (power_text down (unless_zero far)) }
    ensures { Wrote out.old at (power_text down (unless_zero far)) result out.new }
{
    let none = far < 1;
    if none {
        return at;
    }
    out[at] = b'E';
    let behind = put_sign(out, at + 1, down);
    digits::put_digits(out, behind, far)
}

// The whole text.
pub fn put_text(out: &mut [u8], minus: bool, c: u64, k: u32, to: Raised) -> usize
    requires { Room out.old 0 (spelling (parts_with minus c k to.down to.far)) }
    ensures { Wrote out.old 0 (spelling (parts_with minus c k to.down to.far)) result
        out.new }
{
    let a = put_sign(out, 0, minus);
    let whole = before_last(c, k);
    let b = digits::put_digits(out, a, whole);
    let d = put_point(out, b, c, k as usize);
    put_power(out, d, to.down, to.far)
}
