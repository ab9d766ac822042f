// The samples of one trace, quickly (document 02, §5): the rows before its data, then what `sample_rows` answers of its
// block. No string is read. The definitions are quick/Quick; Told has a law for each answer. Stands on `one_trace`,
// `sample_rows`.
// The rules in words: docs/FORMAT.md, "One trace, quickly".
#![tactic(auto)]

ghost use Rattle.std.specs.Prelude.{◌≡◌, length};
ghost use Rattle.quick.specs.Quick.{quick_integers, quick_integers_left, quick_bits, quick_patterns_left, quick_classes_left};

use refusal::Refusal;

// The samples of a trace of code 1 to 3, into a row of S numbers.
pub fn integers(buffer: &[u8], n: usize, trace: i32, row: &mut [i32]) -> Result<(), Refusal>
    ensures answer { result ≡ quick_integers buffer.now n trace (length row.old) }
    ensures row { row.new ≡ quick_integers_left buffer.now n trace row.old }
{
    let t = one_trace::block(buffer, n, trace)?;
    sample_rows::integers(&buffer[..n], t, row)
}

// The bit patterns of a trace of code 4 or 5 and their classes, into two rows of S elements.
pub fn bits(
    buffer: &[u8],
    n: usize,
    trace: i32,
    row: &mut [u64],
    classes: &mut [u8],
) -> Result<(), Refusal>
    ensures answer { result ≡ quick_bits buffer.now n trace (length row.old)
        (length classes.old) }
    ensures row { row.new ≡ quick_patterns_left buffer.now n trace row.old
        classes.old }
    ensures classes { classes.new
        ≡ quick_classes_left buffer.now n trace row.old classes.old }
{
    let x = one_trace::block(buffer, n, trace)?;
    bit_rows::bits(&buffer[..n], x, row, classes)
}
