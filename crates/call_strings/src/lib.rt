// What `seg2` exports on strings, under Rattle's own name: the i-th, whether a keyword is there, its value. Each answer
// crosses as `face_values` hands it over. Stands on `reader`.
// The rules in words: docs/FORMAT.md, "Refusal numbers, in order of checking".
#![tactic(auto)]

ghost use Rattle.std.specs.Prelude.{◌≡◌};
ghost use Rattle.text.specs.declared.Manner.TheVariants.{Strict};
ghost use Rattle.reader.specs.Questions.{nth_answer, find_answer, keyword_answer};
ghost use Rattle.face_values.specs.FaceValues.{as_string, as_keyword, as_value};

use face_values::{Seg2Keyword, Seg2String, Seg2Value};
use text::Manner;

// The string with an index, counted from 0.
pub fn string(buffer: &[u8], n: usize, part: i32, index: usize) -> Seg2String
    ensures { result ≡ as_string (nth_answer Strict buffer.now n part index) }
{
    face_strings::string_told(string_answers::string(buffer, n, part, index, Manner::Strict))
}

// Whether a keyword is there: one of the two calls of a keyword question.
pub fn keyword(buffer: &[u8], n: usize, part: i32, key: &[u8]) -> Seg2Keyword
    ensures { result ≡ as_keyword (keyword_answer Strict buffer.now n part key.now) }
{
    face_strings::keyword_told(string_answers::keyword(buffer, n, part, key, Manner::Strict))
}

// A keyword's value: the other one.
pub fn value(buffer: &[u8], n: usize, part: i32, key: &[u8]) -> Seg2Value
    ensures { result ≡ as_value (find_answer Strict buffer.now n part key.now) }
{
    face_strings::value_told(string_answers::find(buffer, n, part, key, Manner::Strict))
}
