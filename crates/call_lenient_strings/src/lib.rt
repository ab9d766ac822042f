// What `seg2` exports of the lenient reading on strings and keywords (document 02, §11), under Rattle's own name. Each is
// the question in the lenient manner, and beside it the strict check. Each answer crosses as `face_lenient` hands it
// over. Stands on `strict_check`, `reader`.
// The rules in words: docs/FORMAT.md, "Older recorders: a lenient reading".
#![tactic(auto)]

ghost use Rattle.std.specs.Prelude.{◌≡◌};
ghost use Rattle.text.specs.declared.Manner.TheVariants.{Strict, Lenient};
ghost use Rattle.head_limits.specs.declared.Purpose.TheVariants.{Read};
ghost use Rattle.image.specs.Image.{check_of};
ghost use Rattle.reader.specs.Questions.{nth_answer, find_answer, keyword_answer};
ghost use Rattle.face_lenient.specs.FaceLenient.{lenient_string, lenient_keyword, lenient_value};

use face_lenient::{Seg2LenientKeyword, Seg2LenientString, Seg2LenientValue};
use text::Manner;

// The string with an index, counted from 0.
pub fn string(buffer: &[u8], n: usize, part: i32, index: usize) -> Seg2LenientString
    ensures { result ≡ lenient_string (nth_answer Lenient buffer.now n part index)
        (check_of Strict Read buffer.now n) }
{
    let strict = strict_check::strictly(buffer, n);
    face_lenient::string_beside(
        string_answers::string(buffer, n, part, index, Manner::Lenient),
        strict,
    )
}

// Whether a keyword is there: one of the two calls of a keyword question.
pub fn keyword(buffer: &[u8], n: usize, part: i32, key: &[u8]) -> Seg2LenientKeyword
    ensures { result ≡ lenient_keyword (keyword_answer Lenient buffer.now n part key.now)
        (check_of Strict Read buffer.now n) }
{
    let strict = strict_check::strictly(buffer, n);
    face_lenient::keyword_beside(
        string_answers::keyword(buffer, n, part, key, Manner::Lenient),
        strict,
    )
}

// A keyword's value: the other one.
pub fn value(buffer: &[u8], n: usize, part: i32, key: &[u8]) -> Seg2LenientValue
    ensures { result ≡ lenient_value (find_answer Lenient buffer.now n part key.now)
        (check_of Strict Read buffer.now n) }
{
    let strict = strict_check::strictly(buffer, n);
    face_lenient::value_beside(
        string_answers::find(buffer, n, part, key, Manner::Lenient),
        strict,
    )
}
