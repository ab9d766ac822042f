// The file and the sheet of an addition, before its samples (document 01, rows 1 to 17 and 24 to 27; document 02, rows
// 34 and 35). Opening has the definitions, OpeningLaws what each row has shown. Stands on `image`, `lookup`, `sheet`,
// `sheet_channel`.
// The rules in words: docs/FORMAT.md, "What we write".
#![tactic(auto)]

ghost use Rattle.std.specs.Prelude.{◌≡◌, ◌<◌, eqb};
ghost use Rattle.refusal.specs.Verdicts.{accepted};
ghost use Rattle.head_words.specs.HeadWords.{high_first, count_of};
ghost use Rattle.sheet.specs.Area.{measured_of};
ghost use Rattle.terminators.specs.Terminators.{string_end, line_end};
ghost use Rattle.image.specs.Image.{with_channel, image_of};
ghost use Rattle.image.specs.Image.{check_of};
ghost use Rattle.opening.specs.Opening.{wrong_channel, taken_of, area_answer};

use head_limits::Purpose;
use refusal::{Refusal, Rule};
use text::Manner;

// Whether trace 0 of an image that was accepted has a channel number.
fn has_channel(f: &[u8], high: bool) -> bool
    requires { (image_of Manner.Strict Purpose.Grow f.now ≡ accepted) × (0 < count_of f.now)
        × (high ≡ high_first f.now) }
    ensures { result ≡ with_channel Manner.Strict (high_first f.now) (string_end f.now)
        f.now }
{
    let p = block::pointer(f, high, 0);
    let end = p + word::word2(f, high, p + 2);
    let t = terminators::string_end(f);
    lookup::find(f, p + 32, end, high, t, b"CHANNEL_NUMBER", Manner::Strict).is_some()
}

// Row 35: whether a sheet breaks the rule of channel numbers. The first is free to choose.
fn is_wrong_channel(f: &[u8], first: bool, high: bool, sheet: &[u8]) -> bool
    requires { (image_of Manner.Strict Purpose.Grow f.now ≡ accepted) × (first ≡ eqb (count_of f.now) 0)
        × (high ≡ high_first f.now) }
    ensures { result ≡ wrong_channel f.now sheet.now }
{
    if first {
        return sheet_channel::is_bad(sheet, true, false);
    }
    sheet_channel::is_bad(sheet, false, has_channel(f, high))
}

// Rows 25 to 27 of a sheet, with the terminators of an image that was accepted. A function, so that what it keeps in
// memory is given back before row 35.
fn measured(f: &[u8], sheet: &[u8]) -> Result<usize, Refusal>
    requires { image_of Manner.Strict Purpose.Grow f.now ≡ accepted }
    ensures { result ≡ measured_of (string_end f.now) (line_end f.now) sheet.now }
{
    sheet::measure(sheet, terminators::string_end(f), terminators::line_end(f))
}

// Rows 25 to 27 and 35 of a sheet, for an image that was accepted.
fn taken(f: &[u8], first: bool, high: bool, sheet: &[u8]) -> Result<usize, Refusal>
    requires { (image_of Manner.Strict Purpose.Grow f.now ≡ accepted) × (first ≡ eqb (count_of f.now) 0)
        × (high ≡ high_first f.now) }
    ensures { result ≡ taken_of f.now sheet.now }
{
    let size = measured(f, sheet)?;
    if is_wrong_channel(f, first, high, sheet) {
        return Err(refusal::of_file(Rule::SheetChannel, 0));
    }
    Ok(size)
}

// Rows 1 to 17 and 34 of a file that is to grow. A function that hands the answer on, so that the memory that it comes
// back in is given back before the sheet.
fn checked(buffer: &[u8], n: usize) -> Result<(), Refusal>
    ensures { result ≡ check_of Manner.Strict Purpose.Grow buffer.now n }
{
    image::check(buffer, n, Purpose::Grow, Manner::Strict)?;
    Ok(())
}

// Rows 1 to 17 and 34, 24 to 27 and 35: the size of the new trace's area, or the first of them that is met.
pub fn opened(buffer: &[u8], n: usize, sheet: &[u8]) -> Result<usize, Refusal>
    ensures { result ≡ area_answer buffer.now n sheet.now }
{
    checked(buffer, n)?;
    let f = &buffer[..n];
    let b = head_words::file_block(f);
    if b.m < 4 * b.n + 4 {
        return Err(refusal::of_file(Rule::NoSlot, 0));
    }
    taken(f, b.n == 0, b.high, sheet)
}
