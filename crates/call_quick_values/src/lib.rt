// What `seg2` exports on the numbers in a trace's values, quickly, under Rattle's own name. Each answer crosses as
// `face_values` hands it over. Stands on `quick_values`.
// The rules in words: docs/FORMAT.md, "One trace, quickly".
#![tactic(auto)]

ghost use Rattle.std.specs.Prelude.{◌≡◌};
ghost use Rattle.quick.specs.Quick.{quick_number, quick_double, quick_location};
ghost use Rattle.face_values.specs.FaceValues.{as_number, as_double, as_location};

use face_values::{Seg2Double, Seg2Location, Seg2Number};

// The number that a keyword's value is.
pub fn number(buffer: &[u8], n: usize, trace: i32, key: &[u8]) -> Seg2Number
    ensures { result ≡ as_number (quick_number buffer.now n trace key.now) }
{
    face_values::number_told(quick_values::number(buffer, n, trace, key))
}

// The double that a keyword's value is.
pub fn double(buffer: &[u8], n: usize, trace: i32, key: &[u8]) -> Seg2Double
    ensures { result ≡ as_double (quick_double buffer.now n trace key.now) }
{
    face_values::double_told(quick_values::double(buffer, n, trace, key))
}

// The location that a keyword's value is.
pub fn location(buffer: &[u8], n: usize, trace: i32, key: &[u8]) -> Seg2Location
    ensures { result ≡ as_location (quick_location buffer.now n trace key.now) }
{
    face_values::location_told(quick_values::location(buffer, n, trace, key))
}
