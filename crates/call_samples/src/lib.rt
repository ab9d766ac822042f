// What `seg2` exports on samples, under Rattle's own name. Each answer crosses as `face` hands it over. Stands on `samples`.
// The rules in words: docs/FORMAT.md, "Refusal numbers, in order of checking".
#![tactic(auto)]

ghost use Rattle.std.specs.Prelude.{◌≡◌, length};
ghost use Rattle.text.specs.declared.Manner.TheVariants.{Strict};
ghost use Rattle.reader.specs.Questions.{integers_answer, integers_left};
ghost use Rattle.reader.specs.Questions.{bits_answer, patterns_left, classes_left};
ghost use Rattle.face.specs.Face.{as_verdict};

use face::Seg2Verdict;
use text::Manner;

// The samples of a trace of code 1 to 3, into a row of as many.
pub fn integers(buffer: &[u8], n: usize, trace: i32, row: &mut [i32]) -> Seg2Verdict
    ensures answer { result ≡ as_verdict (integers_answer Strict buffer.now n trace
        (length row.old)) }
    ensures row { row.new ≡ integers_left Strict buffer.now n trace row.old }
{
    face::told(samples::integers(buffer, n, trace, row, Manner::Strict))
}

// The bit patterns and the classes of the samples of a trace of code 4 or 5, into two rows of as many.
pub fn bits(buffer: &[u8], n: usize, trace: i32, row: &mut [u64], classes: &mut [u8]) -> Seg2Verdict
    ensures answer { result ≡ as_verdict (bits_answer Strict buffer.now n trace (length row.old)
        (length classes.old)) }
    ensures row { row.new ≡ patterns_left Strict buffer.now n trace row.old
        classes.old }
    ensures classes { classes.new
        ≡ classes_left Strict buffer.now n trace row.old classes.old }
{
    face::told(samples::bits(buffer, n, trace, row, classes, Manner::Strict))
}
