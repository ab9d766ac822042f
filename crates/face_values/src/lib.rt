// The answers on strings and their values as they cross to another language, and a number as it comes back: C structs
// as those of `face`, each beginning with the same three numbers. FaceValues has the definitions, those of `face_strings`
// too; include/seg2.h declares the structs, with the same fields in the same order, to which a host test holds both.
// Stands on `face`, `reader`, `location`, `double` and what they stand on.
// The rules in words: docs/FORMAT.md, "Refusal numbers, in order of checking".
#![tactic(auto)]

ghost use Rattle.std.specs.Prelude.{◌≡◌};
ghost use Rattle.face_values.specs.FaceValues.{as_number, as_double, as_location};
ghost use Rattle.face_values.specs.FaceValues.{as_given};

use decimal_parts::Decimal;
use location::Coordinates;
use refusal::Refusal;

// Whether there is such a string; start and length of its keyword and of its value in the caller's own buffer.
#[repr(C)]
#[derive(Clone, Copy)]
pub struct Seg2String {
    pub number: u32,
    pub part: i32,
    pub place: usize,
    pub found: u32,
    pub key_start: usize,
    pub key_length: usize,
    pub value_start: usize,
    pub value_length: usize,
}

#[repr(C)]
#[derive(Clone, Copy)]
pub struct Seg2Keyword {
    pub number: u32,
    pub part: i32,
    pub place: usize,
    pub found: u32,
}

// Start and length of the value in the caller's own buffer; both 0 for a no or a refusal.
#[repr(C)]
#[derive(Clone, Copy)]
pub struct Seg2Value {
    pub number: u32,
    pub part: i32,
    pub place: usize,
    pub value_start: usize,
    pub value_length: usize,
}

// Sign (1: minus), coefficient as written, power of ten, and how many digits stood after the point.
#[repr(C)]
#[derive(Clone, Copy)]
pub struct Seg2Number {
    pub number: u32,
    pub part: i32,
    pub place: usize,
    pub minus: u32,
    pub power: i32,
    pub coefficient: u64,
    pub decimals: u32,
}

#[repr(C)]
#[derive(Clone, Copy)]
pub struct Seg2Double {
    pub number: u32,
    pub part: i32,
    pub place: usize,
    pub value: f64,
}

// How many values there were, the values, and of each how many digits stood after its point; absent ones are 0.
#[repr(C)]
#[derive(Clone, Copy)]
pub struct Seg2Location {
    pub number: u32,
    pub part: i32,
    pub place: usize,
    pub count: u32,
    pub x: f64,
    pub y: f64,
    pub z: f64,
    pub x_decimals: u32,
    pub y_decimals: u32,
    pub z_decimals: u32,
}

// ---- a number as it comes back from another language

// Its sign is a number there: 0 for plus, any other for minus.
pub fn number_given(minus: u32, coefficient: u64, power: i32, decimals: u32) -> Decimal
    ensures { result ≡ as_given minus coefficient power decimals }
{
    Decimal {
        minus: 0 < minus,
        coefficient,
        power,
        decimals,
    }
}

// ---- answers as they cross to another language

pub fn number_told(a: Result<Decimal, Refusal>) -> Seg2Number
    ensures { result ≡ as_number a }
{
    match a {
        Ok(n) => Seg2Number {
            number: 0,
            part: -1,
            place: 0,
            minus: face::one_if(n.minus),
            power: n.power,
            coefficient: n.coefficient,
            decimals: n.decimals,
        },
        Err(r) => {
            let t = face::told(Err(r));
            Seg2Number {
                number: t.number,
                part: t.part,
                place: t.place,
                minus: 0,
                power: 0,
                coefficient: 0,
                decimals: 0,
            }
        }
    }
}

pub fn double_told(a: Result<f64, Refusal>) -> Seg2Double
    ensures { result ≡ as_double a }
{
    match a {
        Ok(x) => Seg2Double {
            number: 0,
            part: -1,
            place: 0,
            value: x,
        },
        Err(r) => {
            let t = face::told(Err(r));
            Seg2Double {
                number: t.number,
                part: t.part,
                place: t.place,
                value: 0.0,
            }
        }
    }
}

pub fn location_told(a: Result<Coordinates, Refusal>) -> Seg2Location
    ensures { result ≡ as_location a }
{
    match a {
        Ok(c) => Seg2Location {
            number: 0,
            part: -1,
            place: 0,
            count: c.count,
            x: c.x,
            y: c.y,
            z: c.z,
            x_decimals: c.x_decimals,
            y_decimals: c.y_decimals,
            z_decimals: c.z_decimals,
        },
        Err(r) => {
            let t = face::told(Err(r));
            Seg2Location {
                number: t.number,
                part: t.part,
                place: t.place,
                count: 0,
                x: 0.0,
                y: 0.0,
                z: 0.0,
                x_decimals: 0,
                y_decimals: 0,
                z_decimals: 0,
            }
        }
    }
}
