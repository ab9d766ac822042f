// What `seg2` exports of the lenient reading on blocks (document 02, §11), under Rattle's own name: the check, the file
// block, a trace's block, how many strings a part has. Each is the question in the lenient manner, and beside it the
// strict check. Each answer crosses as `face_lenient` hands it over. Stands on `strict_check`, `image`, `reader`.
// The rules in words: docs/FORMAT.md, "Older recorders: a lenient reading".
#![tactic(auto)]

ghost use Rattle.std.specs.Prelude.{◌≡◌};
ghost use Rattle.text.specs.declared.Manner.TheVariants.{Strict, Lenient};
ghost use Rattle.head_limits.specs.declared.Purpose.TheVariants.{Read};
ghost use Rattle.image.specs.Image.{check_of};
ghost use Rattle.reader.specs.Questions.{file_answer, trace_answer, count_answer};
ghost use Rattle.face_lenient.specs.FaceLenient.{lenient_verdict, lenient_file, lenient_trace, lenient_count};

use face_lenient::{Seg2LenientCount, Seg2LenientFile, Seg2LenientTrace, Seg2LenientVerdict};
use head_limits::Purpose;
use text::Manner;

// Whether the first `n` bytes of the buffer are a file that keeps the rules as the lenient reading has them.
pub fn check(buffer: &[u8], n: usize) -> Seg2LenientVerdict
    ensures { result ≡ lenient_verdict (check_of Lenient Read buffer.now n)
        (check_of Strict Read buffer.now n) }
{
    let strict = strict_check::strictly(buffer, n);
    face_lenient::verdict_beside(
        image::check(buffer, n, Purpose::Read, Manner::Lenient),
        strict,
    )
}

// The file block.
pub fn file_block(buffer: &[u8], n: usize) -> Seg2LenientFile
    ensures { result ≡ lenient_file (file_answer Lenient buffer.now n)
        (check_of Strict Read buffer.now n) }
{
    let strict = strict_check::strictly(buffer, n);
    face_lenient::file_beside(
        block_answers::file_block(buffer, n, Manner::Lenient),
        strict,
    )
}

// A trace's block.
pub fn trace_block(buffer: &[u8], n: usize, trace: i32) -> Seg2LenientTrace
    ensures { result ≡ lenient_trace (trace_answer Lenient buffer.now n trace)
        (check_of Strict Read buffer.now n) }
{
    let strict = strict_check::strictly(buffer, n);
    face_lenient::trace_beside(
        block_answers::trace_block(buffer, n, trace, Manner::Lenient),
        strict,
    )
}

// How many strings the file (part -1) or a trace has.
pub fn string_count(buffer: &[u8], n: usize, part: i32) -> Seg2LenientCount
    ensures { result ≡ lenient_count (count_answer Lenient buffer.now n part)
        (check_of Strict Read buffer.now n) }
{
    let strict = strict_check::strictly(buffer, n);
    face_lenient::count_beside(
        string_answers::string_count(buffer, n, part, Manner::Lenient),
        strict,
    )
}
