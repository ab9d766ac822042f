// The answers on strings, keywords and their values as they cross to another language. The structs are those of
// `face_values`, the definitions face_values/FaceValues, beside those of numbers. Stands on `face_values`, `face`,
// `reader`.
// The rules in words: docs/FORMAT.md, "Refusal numbers, in order of checking".
#![tactic(auto)]

ghost use Rattle.std.specs.Prelude.{◌≡◌, ◌-◌};
ghost use Rattle.face_values.specs.FaceValues.{as_string, as_keyword, as_value};

use face_values::{Seg2Keyword, Seg2String, Seg2Value};
use refusal::Refusal;
use strings::Place;

// How many bytes stand from a up to e.
fn span(a: usize, e: usize) -> usize
    ensures { result ≡ e - a }
{
    if e < a {
        return 0;
    }
    e - a
}

pub fn string_told(a: Result<Option<Place>, Refusal>) -> Seg2String
    ensures { result ≡ as_string a }
{
    match a {
        Ok(Some(s)) => Seg2String {
            number: 0,
            part: -1,
            place: 0,
            found: 1,
            key_start: s.key,
            key_length: span(s.key, s.gap),
            value_start: s.value,
            value_length: span(s.value, s.end),
        },
        Ok(None) => Seg2String {
            number: 0,
            part: -1,
            place: 0,
            found: 0,
            key_start: 0,
            key_length: 0,
            value_start: 0,
            value_length: 0,
        },
        Err(r) => {
            let t = face::told(Err(r));
            Seg2String {
                number: t.number,
                part: t.part,
                place: t.place,
                found: 0,
                key_start: 0,
                key_length: 0,
                value_start: 0,
                value_length: 0,
            }
        }
    }
}

pub fn keyword_told(a: Result<bool, Refusal>) -> Seg2Keyword
    ensures { result ≡ as_keyword a }
{
    match a {
        Ok(true) => Seg2Keyword {
            number: 0,
            part: -1,
            place: 0,
            found: 1,
        },
        Ok(false) => Seg2Keyword {
            number: 0,
            part: -1,
            place: 0,
            found: 0,
        },
        Err(r) => {
            let t = face::told(Err(r));
            Seg2Keyword {
                number: t.number,
                part: t.part,
                place: t.place,
                found: 0,
            }
        }
    }
}

pub fn value_told(a: Result<Option<Place>, Refusal>) -> Seg2Value
    ensures { result ≡ as_value a }
{
    match a {
        Ok(Some(s)) => Seg2Value {
            number: 0,
            part: -1,
            place: 0,
            value_start: s.value,
            value_length: span(s.value, s.end),
        },
        Ok(None) => Seg2Value {
            number: 0,
            part: -1,
            place: 0,
            value_start: 0,
            value_length: 0,
        },
        Err(r) => {
            let t = face::told(Err(r));
            Seg2Value {
                number: t.number,
                part: t.part,
                place: t.place,
                value_start: 0,
                value_length: 0,
            }
        }
    }
}
