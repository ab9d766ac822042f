// What `seg2` exports that fills a lent row, under Rattle's own name: the strings of a part, and of one trace, quickly,
// its strings and its samples. Each answer crosses as `face` hands it over. Stands on `string_rows`, `quick_strings`,
// `quick_samples`.
// The rules in words: docs/FORMAT.md, "Strings" and "One trace, quickly".
#![tactic(auto)]

ghost use Rattle.std.specs.Prelude.{◌≡◌, length};
ghost use Rattle.text.specs.declared.Manner.TheVariants.{Strict};
ghost use Rattle.reader.specs.Questions.{strings_answer, strings_left};
ghost use Rattle.quick.specs.Quick.{quick_strings, quick_strings_left, quick_integers, quick_integers_left, quick_bits};
ghost use Rattle.quick.specs.Quick.{quick_patterns_left, quick_classes_left};
ghost use Rattle.face.specs.Face.{as_verdict};

use face::Seg2Verdict;
use text::Manner;

// All strings of the file (part -1) or a trace, into a row of four numbers each.
pub fn strings(buffer: &[u8], n: usize, part: i32, row: &mut [usize]) -> Seg2Verdict
    ensures answer { result ≡ as_verdict (strings_answer Strict buffer.now n part
        (length row.old)) }
    ensures row { row.new ≡ strings_left Strict buffer.now n part row.old }
{
    face::told(part_rows::strings(buffer, n, part, row, Manner::Strict))
}

// All strings of a trace, quickly.
pub fn quick_strings(buffer: &[u8], n: usize, trace: i32, row: &mut [usize]) -> Seg2Verdict
    ensures answer { result ≡ as_verdict (quick_strings buffer.now n trace (length row.old)) }
    ensures row { row.new ≡ quick_strings_left buffer.now n trace row.old }
{
    face::told(quick_rows::strings(buffer, n, trace, row))
}

// The samples of a trace of code 1 to 3, quickly, into a row of as many.
pub fn quick_integers(buffer: &[u8], n: usize, trace: i32, row: &mut [i32]) -> Seg2Verdict
    ensures answer { result ≡ as_verdict (quick_integers buffer.now n trace (length row.old)) }
    ensures row { row.new ≡ quick_integers_left buffer.now n trace row.old }
{
    face::told(quick_samples::integers(buffer, n, trace, row))
}

// The bit patterns and the classes of the samples of a trace of code 4 or 5, quickly, into two rows of as many.
pub fn quick_bits(
    buffer: &[u8],
    n: usize,
    trace: i32,
    row: &mut [u64],
    classes: &mut [u8],
) -> Seg2Verdict
    ensures answer { result ≡ as_verdict (quick_bits buffer.now n trace (length row.old)
        (length classes.old)) }
    ensures row { row.new ≡ quick_patterns_left buffer.now n trace row.old
        classes.old }
    ensures classes { classes.new
        ≡ quick_classes_left buffer.now n trace row.old classes.old }
{
    face::told(quick_samples::bits(buffer, n, trace, row, classes))
}
