// Whom and which bytes a question on a file is about (document 01, row 18). Questions has the definitions of all
// questions: what `block_answers`, `string_answers`, `values` and `samples` answer too; Listed, Answers and Reach are the
// second view. Every question checks the whole file first; its answer is one of the image, the first `n` bytes of the
// lent buffer. A part is -1 for the file, else the trace; `how` is the manner of reading. Stands on `part_number`,
// `image`, and for the definitions on `places`, `location`, `double` and `decimal`.
// The rules in words: docs/FORMAT.md, "Strings".
#![tactic(auto)]

ghost use Rattle.std.specs.Prelude.{◌≡◌, ◌≤◌, length};
ghost use Rattle.refusal.specs.Verdicts.{accepted};
ghost use Rattle.head_limits.specs.declared.Purpose.TheVariants.{Read};
ghost use Rattle.head_words.specs.HeadWords.{count_of};
ghost use Rattle.image.specs.Image.{image_of};
ghost use Rattle.reader.specs.Questions.{no_trace, area_asked};
ghost use Rattle.part_number.specs.PartNumber.{whose_of};
ghost use Rattle.reader.specs.Leaves.{opened_of};

use head_limits::Purpose;
use refusal::{Part, Refusal, Rule};
use strings::Place;
use text::Manner;

// Whom a part number names among the traces of an image.
pub fn whose_in(f: &[u8], part: i32) -> Option<Part>
    requires { 32 ≤ length f.now }
    ensures { result ≡ whose_of part (count_of f.now) }
{
    let n = word::word2(f, head_words::is_high(f), 6);
    part_number::named(part, n as u16)
}

// Row 18.
pub fn no_trace() -> Refusal
    ensures { result ≡ no_trace }
{
    refusal::of_file(Rule::NoTrace, 0)
}

// Where the strings of a part of an accepted image stand.
fn area_of(f: &[u8], part: i32, how: Manner) -> Option<(usize, usize)>
    requires { (32 ≤ length f.now) × (image_of how Read f.now ≡ accepted) }
    ensures { result ≡ area_asked f.now part }
{
    let high = head_words::is_high(f);
    match whose_in(f, part) {
        None => None,
        Some(Part::File) => Some((32 + word::word2(f, high, 4), block::pointer(f, high, 0))),
        Some(Part::Trace(k)) => {
            let p = block::pointer(f, high, k);
            Some((p + 32, p + word::word2(f, high, p + 2)))
        }
    }
}

// The check, then where the strings of a part stand; or the refusal of either.
pub fn open_area(buffer: &[u8], n: usize, part: i32, how: Manner) -> Result<(usize, usize), Refusal>
    ensures { result ≡ opened_of how buffer.now n part }
{
    image::check(buffer, n, Purpose::Read, how)?;
    area_of(&buffer[..n], part, how).ok_or(no_trace())
}
