// Starting a file (document 01, "What we write" and rows 25 to 27, 30 and 31). Every refusal is found before the first
// byte is written: a start is the question for its room, and then row 30. Start has the definitions, StartShown the second
// view: a file is started exactly where no row is met. Stands on `layout`, `head`, `sheet`.
// The rules in words: docs/FORMAT.md, "What we write".
#![tactic(auto)]

ghost use Rattle.std.specs.Prelude.{◌≡◌};
ghost use Rattle.start.specs.Start.{bad_start, start_answer, start_needs, start_left};

use refusal::{Refusal, Rule};

fn is_bad_start(order: usize, slots: usize) -> bool
    ensures { result ≡ bad_start order slots }
{
    order > 1 || !(1..=layout::SLOTS).contains(&slots)
}

// The length that the file of a start would have, without a buffer: rows 31 and 25 to 27. Row 30 is left to the room, as
// slots and area are bounded far below the maximum.
pub fn size(order: usize, slots: usize, sheet: &[u8]) -> Result<usize, Refusal>
    ensures { result ≡ start_needs order slots sheet.now }
{
    if is_bad_start(order, slots) {
        return Err(refusal::of_file(Rule::StartValues, 0));
    }
    let size = sheet::measure(sheet, b"\0", b"\n")?;
    Ok(32 + 4 * slots + size)
}

// A new file without traces: the byte order (0 low first, 1 high first), the number of pointer slots, the file's sheet.
pub fn start(buffer: &mut [u8], order: usize, slots: usize, sheet: &[u8]) -> Result<usize, Refusal>
    ensures answer { result ≡ start_answer buffer.old order slots sheet.now }
    ensures left { buffer.new ≡ start_left buffer.old order slots sheet.now }
{
    let end = size(order, slots, sheet)?;
    if buffer.len() < end {
        return Err(refusal::of_file(Rule::NoRoom, 0));
    }
    layout::put_start(buffer, order == 1, slots, sheet);
    Ok(end)
}
