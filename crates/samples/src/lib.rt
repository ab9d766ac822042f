// The samples of a trace, as integers or as bits and classes (document 01, "Samples", rows 18, 32, 33): the check of the
// whole file, row 18, then what `sample_rows` answers of the trace's block. The definitions are those of
// reader/Questions; Samples has a law for each answer. Stands on `reader`, `sample_rows`.
// The rules in words: docs/FORMAT.md, "Samples".
#![tactic(auto)]

ghost use Rattle.std.specs.Prelude.{◌≡◌, length};
ghost use Rattle.reader.specs.Questions.{integers_answer, integers_left, bits_answer, patterns_left, classes_left};

use refusal::Refusal;
use text::Manner;

// The samples of a trace of code 1 to 3, into a row of S numbers.
pub fn integers(
    buffer: &[u8],
    n: usize,
    trace: i32,
    row: &mut [i32],
    how: Manner,
) -> Result<(), Refusal>
    ensures answer { result ≡ integers_answer how buffer.now n trace (length row.old) }
    ensures row { row.new ≡ integers_left how buffer.now n trace row.old }
{
    let t = block_answers::trace_block(buffer, n, trace, how)?;
    sample_rows::integers(&buffer[..n], t, row)
}

// The bit patterns of a trace of code 4 or 5 and their classes, into two rows of S elements.
pub fn bits(
    buffer: &[u8],
    n: usize,
    trace: i32,
    row: &mut [u64],
    classes: &mut [u8],
    how: Manner,
) -> Result<(), Refusal>
    ensures answer { result ≡ bits_answer how buffer.now n trace (length row.old)
        (length classes.old) }
    ensures row { row.new ≡ patterns_left how buffer.now n trace row.old
        classes.old }
    ensures classes { classes.new
        ≡ classes_left how buffer.now n trace row.old classes.old }
{
    let x = block_answers::trace_block(buffer, n, trace, how)?;
    bit_rows::bits(&buffer[..n], x, row, classes)
}
