// What `seg2` exports on the numbers in values, under Rattle's own name. Each answer crosses as `face_values` hands it over.
// Stands on `values`.
// The rules in words: docs/FORMAT.md, "Refusal numbers, in order of checking".
#![tactic(auto)]

ghost use Rattle.std.specs.Prelude.{◌≡◌};
ghost use Rattle.text.specs.declared.Manner.TheVariants.{Strict};
ghost use Rattle.reader.specs.Questions.{number_answer, double_answer, location_answer};
ghost use Rattle.face_values.specs.FaceValues.{as_number, as_double, as_location};

use face_values::{Seg2Double, Seg2Location, Seg2Number};
use text::Manner;

// The number that a keyword's value is.
pub fn number(buffer: &[u8], n: usize, part: i32, key: &[u8]) -> Seg2Number
    ensures { result ≡ as_number (number_answer Strict buffer.now n part key.now) }
{
    face_values::number_told(values::number(buffer, n, part, key, Manner::Strict))
}

// The double that a keyword's value is.
pub fn double(buffer: &[u8], n: usize, part: i32, key: &[u8]) -> Seg2Double
    ensures { result ≡ as_double (double_answer Strict buffer.now n part key.now) }
{
    face_values::double_told(values::double(buffer, n, part, key, Manner::Strict))
}

// The location that a keyword's value is.
pub fn location(buffer: &[u8], n: usize, part: i32, key: &[u8]) -> Seg2Location
    ensures { result ≡ as_location (location_answer Strict buffer.now n part key.now) }
{
    face_values::location_told(values::location(buffer, n, part, key, Manner::Strict))
}
