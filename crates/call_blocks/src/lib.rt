// What `seg2` exports on blocks, under Rattle's own name: the check, the file block, a trace's block, how many strings a part
// has. Each answer crosses as `face` hands it over. Stands on `image`, `reader`.
// The rules in words: docs/FORMAT.md, "Refusal numbers, in order of checking".
#![tactic(auto)]

ghost use Rattle.std.specs.Prelude.{◌≡◌};
ghost use Rattle.text.specs.declared.Manner.TheVariants.{Strict};
ghost use Rattle.head_limits.specs.declared.Purpose.TheVariants.{Read};
ghost use Rattle.image.specs.Image.{check_of};
ghost use Rattle.reader.specs.Questions.{file_answer, trace_answer, count_answer};
ghost use Rattle.face.specs.Face.{as_verdict, as_file, as_trace, as_count};

use face::{Seg2Count, Seg2File, Seg2Trace, Seg2Verdict};
use head_limits::Purpose;
use text::Manner;

// Whether the first `n` bytes of the buffer are a file that keeps the rules; if not, the first row of the table that it
// meets.
pub fn check(buffer: &[u8], n: usize) -> Seg2Verdict
    ensures { result ≡ as_verdict (check_of Strict Read buffer.now n) }
{
    face::told(image::check(buffer, n, Purpose::Read, Manner::Strict))
}

// The file block.
pub fn file_block(buffer: &[u8], n: usize) -> Seg2File
    ensures { result ≡ as_file (file_answer Strict buffer.now n) }
{
    face::file_told(block_answers::file_block(buffer, n, Manner::Strict))
}

// A trace's block.
pub fn trace_block(buffer: &[u8], n: usize, trace: i32) -> Seg2Trace
    ensures { result ≡ as_trace (trace_answer Strict buffer.now n trace) }
{
    face::trace_told(block_answers::trace_block(buffer, n, trace, Manner::Strict))
}

// How many strings the file (part -1) or a trace has.
pub fn string_count(buffer: &[u8], n: usize, part: i32) -> Seg2Count
    ensures { result ≡ as_count (count_answer Strict buffer.now n part) }
{
    face::count_told(string_answers::string_count(buffer, n, part, Manner::Strict))
}
