// What `seg2` exports of the lenient reading that fills a lent row (document 02, §11), under Rattle's own name: the
// strings of a part, the samples of a trace. Each is the question in the lenient manner, and beside it the strict check.
// Each answer crosses as `face_lenient` hands it over. Stands on `strict_check`,
// `string_rows`, `samples`.
// The rules in words: docs/FORMAT.md, "Older recorders: a lenient reading".
#![tactic(auto)]

ghost use Rattle.std.specs.Prelude.{◌≡◌, length};
ghost use Rattle.text.specs.declared.Manner.TheVariants.{Strict, Lenient};
ghost use Rattle.head_limits.specs.declared.Purpose.TheVariants.{Read};
ghost use Rattle.image.specs.Image.{check_of};
ghost use Rattle.reader.specs.Questions.{strings_answer, strings_left, integers_answer, integers_left};
ghost use Rattle.reader.specs.Questions.{bits_answer, patterns_left, classes_left};
ghost use Rattle.face_lenient.specs.FaceLenient.{lenient_verdict};

use face_lenient::Seg2LenientVerdict;
use text::Manner;

// All strings of the file (part -1) or a trace, into a row of four numbers each.
pub fn strings(buffer: &[u8], n: usize, part: i32, row: &mut [usize]) -> Seg2LenientVerdict
    ensures answer { result ≡ lenient_verdict
        (strings_answer Lenient buffer.now n part (length row.old))
        (check_of Strict Read buffer.now n) }
    ensures row { row.new ≡ strings_left Lenient buffer.now n part row.old }
{
    let strict = strict_check::strictly(buffer, n);
    face_lenient::verdict_beside(
        part_rows::strings(buffer, n, part, row, Manner::Lenient),
        strict,
    )
}

// The samples of a trace of code 1 to 3, into a row of as many.
pub fn integers(buffer: &[u8], n: usize, trace: i32, row: &mut [i32]) -> Seg2LenientVerdict
    ensures answer { result ≡ lenient_verdict
        (integers_answer Lenient buffer.now n trace (length row.old))
        (check_of Strict Read buffer.now n) }
    ensures row { row.new ≡ integers_left Lenient buffer.now n trace row.old }
{
    let strict = strict_check::strictly(buffer, n);
    face_lenient::verdict_beside(
        samples::integers(buffer, n, trace, row, Manner::Lenient),
        strict,
    )
}

// The bit patterns and the classes of the samples of a trace of code 4 or 5, into two rows of as many.
pub fn bits(
    buffer: &[u8],
    n: usize,
    trace: i32,
    row: &mut [u64],
    classes: &mut [u8],
) -> Seg2LenientVerdict
    ensures answer { result ≡ lenient_verdict
        (bits_answer Lenient buffer.now n trace (length row.old) (length classes.old))
        (check_of Strict Read buffer.now n) }
    ensures row { row.new ≡ patterns_left Lenient buffer.now n trace row.old
        classes.old }
    ensures classes { classes.new
        ≡ classes_left Lenient buffer.now n trace row.old classes.old }
{
    let strict = strict_check::strictly(buffer, n);
    face_lenient::verdict_beside(
        samples::bits(buffer, n, trace, row, classes, Manner::Lenient),
        strict,
    )
}
