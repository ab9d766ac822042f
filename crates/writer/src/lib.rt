// Adding a trace (document 01, "What we write" and rows 24 to 30; document 02, row 35). Every refusal is found before the
// first byte is written. Answers has the definitions, Shown the second view: a trace is added exactly where no row is
// met. Stands on `opening` (the file and the sheet), `entry` (the samples), `append`, `start`.
// The rules in words: docs/FORMAT.md, "What we write".
#![tactic(auto)]

ghost use Rattle.std.specs.Prelude.{◌≡◌, ◌+◌, ◌≤◌, ◌<◌, Err};
ghost use Rattle.refusal.specs.Verdicts.{accepted};
ghost use Rattle.word.specs.Round.{round4};
ghost use Rattle.refusal.specs.Verdicts.{asked};
ghost use Rattle.sample.specs.Needed.{room};
ghost use Rattle.head.specs.Head.{maximum};
ghost use Rattle.layout.specs.Layout.{integers_trace, patterns_trace};
ghost use Rattle.layout.specs.LayoutLaws.{Kinded};
ghost use Rattle.sheet.specs.Area.{area_most};
ghost use Rattle.start.specs.Start.{within};
ghost use Rattle.writer.specs.Answers.{add_into, add_answer, add_needs, add_left};

use refusal::{Refusal, Rule};

// ---- every row in its order, into `len` bytes of room; `fit` is what rows 28 and 29 say of the samples

// Rows 28 to 30 where the sheet's area has `size` bytes. A count over the maximum is over it in bytes too, and is asked
// first: a count in a file has 32 bits.
fn ended(
    len: usize,
    n: usize,
    size: usize,
    code: u32,
    count: usize,
    fit: Result<(), Refusal>,
) -> Result<usize, Refusal>
    requires { (n ≤ maximum) × (size ≤ area_most) × (fit ≡ accepted → Kinded code count) }
    ensures { result ≡ asked Err fit (within len (round4 n + (32 + size + room code count))) }
{
    fit?;
    if head::MAXIMUM < count {
        return Err(refusal::of_file(Rule::NoRoom, 0));
    }
    let end = word::round_up(n) + (32 + size + sample::room(code as u8, count as u32));
    let lacking = len < end || head::MAXIMUM < end;
    if lacking {
        return Err(refusal::of_file(Rule::NoRoom, 0));
    }
    Ok(end)
}

// The new length, or the first row that is met.
fn answered(
    buffer: &[u8],
    len: usize,
    n: usize,
    sheet: &[u8],
    code: u32,
    count: usize,
    fit: Result<(), Refusal>,
) -> Result<usize, Refusal>
    requires { fit ≡ accepted → Kinded code count }
    ensures { result ≡ add_into len buffer.now n sheet.now code count fit }
{
    let size = opening::opened(buffer, n, sheet)?;
    ended(len, n, size, code, count, fit)
}

// The same. A function that hands the answer on, so that the memory that it comes back in is given back before the file
// grows.
fn told(
    buffer: &[u8],
    len: usize,
    n: usize,
    sheet: &[u8],
    code: u32,
    count: usize,
    fit: Result<(), Refusal>,
) -> Result<usize, Refusal>
    requires { fit ≡ accepted → Kinded code count }
    ensures { result ≡ add_into len buffer.now n sheet.now code count fit }
{
    let end = answered(buffer, len, n, sheet, code, count, fit)?;
    Ok(end)
}

// ---- the room beforehand

// The length that the file would have with a trace of `count` samples, without room for it and without the samples.
pub fn size(
    buffer: &[u8],
    n: usize,
    sheet: &[u8],
    code: u32,
    count: usize,
) -> Result<usize, Refusal>
    ensures { result ≡ add_needs buffer.now n sheet.now code count }
{
    let fit = entry::code_fits(code, count);
    told(buffer, head::MAXIMUM, n, sheet, code, count, fit)
}

// ---- adding

// A trace of integers (codes 1 to 3) behind the image that the buffer's first `n` bytes are: a file, or a start's image
// without traces.
pub fn add_integers(
    buffer: &mut [u8],
    n: usize,
    sheet: &[u8],
    code: u32,
    row: &[i32],
) -> Result<usize, Refusal>
    ensures answer { result ≡ add_answer buffer.old n (integers_trace sheet.now code
        row.now) }
    ensures left { buffer.new
        ≡ add_left buffer.old n (integers_trace sheet.now code row.now) }
{
    let fit = entry::integers_fit(code, row);
    let end = told(buffer, buffer.len(), n, sheet, code, row.len(), fit)?;
    append::grow_integers(buffer, n, sheet, end, code, row);
    Ok(end)
}

// A trace of bit patterns (codes 4 and 5).
pub fn add_bits(
    buffer: &mut [u8],
    n: usize,
    sheet: &[u8],
    code: u32,
    row: &[u64],
) -> Result<usize, Refusal>
    ensures answer { result ≡ add_answer buffer.old n (patterns_trace sheet.now code
        row.now) }
    ensures left { buffer.new
        ≡ add_left buffer.old n (patterns_trace sheet.now code row.now) }
{
    let fit = entry::bits_fit(code, row);
    let end = told(buffer, buffer.len(), n, sheet, code, row.len(), fit)?;
    append::grow_bits(buffer, n, sheet, end, code, row);
    Ok(end)
}
