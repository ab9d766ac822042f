// The text of a number against the room that is lent (document 02 §4, row 30): measured, and stored where it fits.
// Fitted has the definition, Sizes the laws. Stands on `numeral_text`, `digits`, `refusal`.
// The rules in words: docs/FORMAT.md, "Numbers in values".
#![tactic(auto)]

ghost use Rattle.std.specs.Prelude.{◌≡◌, ◌+◌, ◌≤◌, length};
ghost use Rattle.word.specs.Put.{put};
ghost use Rattle.refusal.specs.Writing.{on_written};
ghost use Rattle.digits.specs.LastDigits.{last_digits};
ghost use Rattle.numeral_text.specs.NumeralText.{unless_zero, parts_with, sign_text, point_text, power_text, spelling};
ghost use Rattle.numeral_room.specs.Fitted.{fitted};

use numeral_text::Raised;
use refusal::{Refusal, Rule};

fn sign_size(minus: bool) -> usize
    ensures { (result ≡ length (sign_text minus)) × (result ≤ 1) }
{
    usize::from(minus)
}

fn point_size(c: u64, k: u32) -> usize
    ensures { (result ≡ length (point_text (last_digits k c))) × (result ≤ k + 1) }
{
    if k < 1 { 0 } else { k as usize + 1 }
}

fn power_size(to: Raised) -> usize
    ensures { (result ≡ length (power_text to.down (unless_zero to.far))) × (result ≤ 22) }
{
    if to.far < 1 {
        return 0;
    }
    1 + sign_size(to.down) + digits::digit_count(to.far)
}

// How long the text is.
fn text_size(minus: bool, c: u64, k: u32, to: Raised) -> usize
    ensures { result ≡ length (spelling (parts_with minus c k to.down to.far)) }
{
    let whole = numeral_text::before_last(c, k);
    sign_size(minus) + digits::digit_count(whole) + point_size(c, k) + power_size(to)
}

// Row 30, and the text at the start of the lent bytes where it is not met.
pub fn put_fitting(
    out: &mut [u8],
    minus: bool,
    c: u64,
    k: u32,
    to: Raised,
) -> Result<usize, Refusal>
    ensures answer { result ≡ fitted (length out.old)
        (spelling (parts_with minus c k to.down to.far)) }
    ensures left { out.new ≡ on_written result (put out.old 0
        (spelling (parts_with minus c k to.down to.far))) out.old }
{
    let size = text_size(minus, c, k, to);
    if out.len() < size {
        return Err(refusal::of_file(Rule::NoRoom, 0));
    }
    Ok(numeral_text::put_text(out, minus, c, k, to))
}
