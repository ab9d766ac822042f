// What `seg2` exports on a number by itself, read and written, under Rattle's own name. Each answer crosses as `face` and
// `face_values` hand it over. Stands on `decimal`, `numeral`.
// The rules in words: docs/FORMAT.md, "Refusal numbers, in order of checking".
#![tactic(auto)]

ghost use Rattle.std.specs.Prelude.{◌≡◌, length};
ghost use Rattle.decimal.specs.Number.{number_in};
ghost use Rattle.numeral.specs.Numeral.{numeral_answer, numeral_left};
ghost use Rattle.face.specs.Face.{as_length};
ghost use Rattle.face_values.specs.FaceValues.{as_number, as_given};

use face::Seg2Length;
use face_values::Seg2Number;

// The number that a text is: what a user typed, before it goes into a sheet.
pub fn read_number(text: &[u8]) -> Seg2Number
    ensures { result ≡ as_number (number_in text.now) }
{
    face_values::number_told(decimal::number(text))
}

// A number as text with its own decimals, at the start of the lent bytes: minus is 0 or not.
pub fn write_number(
    text: &mut [u8],
    minus: u32,
    coefficient: u64,
    power: i32,
    decimals: u32,
) -> Seg2Length
    ensures answer { result ≡ as_length (numeral_answer (length text.old)
        (as_given minus coefficient power decimals)) }
    ensures left { text.new ≡ numeral_left text.old
        (as_given minus coefficient power decimals) }
{
    let n = face_values::number_given(minus, coefficient, power, decimals);
    face::length_told(numeral::write(text, n))
}
