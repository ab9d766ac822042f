// What `seg2` exports of the lenient reading on the numbers in values (document 02, §11), under Rattle's own name. Each is
// the question in the lenient manner, and beside it the strict check. Each answer crosses as `face_lenient` hands it over.
// Stands on `strict_check`, `reader`, `values`.
// The rules in words: docs/FORMAT.md, "Older recorders: a lenient reading".
#![tactic(auto)]

ghost use Rattle.std.specs.Prelude.{◌≡◌};
ghost use Rattle.text.specs.declared.Manner.TheVariants.{Strict, Lenient};
ghost use Rattle.head_limits.specs.declared.Purpose.TheVariants.{Read};
ghost use Rattle.image.specs.Image.{check_of};
ghost use Rattle.reader.specs.Questions.{number_answer, double_answer, location_answer};
ghost use Rattle.face_lenient.specs.FaceLenient.{lenient_number, lenient_double, lenient_location};

use face_lenient::{Seg2LenientDouble, Seg2LenientLocation, Seg2LenientNumber};
use text::Manner;

// The number that a keyword's value is.
pub fn number(buffer: &[u8], n: usize, part: i32, key: &[u8]) -> Seg2LenientNumber
    ensures { result ≡ lenient_number (number_answer Lenient buffer.now n part key.now)
        (check_of Strict Read buffer.now n) }
{
    let strict = strict_check::strictly(buffer, n);
    face_lenient::number_beside(
        values::number_of(
            buffer,
            string_answers::find(buffer, n, part, key, Manner::Lenient), // of a number
        ),
        strict,
    )
}

// The double that a keyword's value is.
pub fn double(buffer: &[u8], n: usize, part: i32, key: &[u8]) -> Seg2LenientDouble
    ensures { result ≡ lenient_double (double_answer Lenient buffer.now n part key.now)
        (check_of Strict Read buffer.now n) }
{
    let strict = strict_check::strictly(buffer, n);
    face_lenient::double_beside(
        values::double_of(
            buffer,
            string_answers::find(buffer, n, part, key, Manner::Lenient), // of a double
        ),
        strict,
    )
}

// The location that a keyword's value is.
pub fn location(buffer: &[u8], n: usize, part: i32, key: &[u8]) -> Seg2LenientLocation
    ensures { result ≡ lenient_location (location_answer Lenient buffer.now n part key.now)
        (check_of Strict Read buffer.now n) }
{
    let strict = strict_check::strictly(buffer, n);
    face_lenient::location_beside(
        values::location_of(
            buffer,
            string_answers::find(buffer, n, part, key, Manner::Lenient), // of a location
        ),
        strict,
    )
}
