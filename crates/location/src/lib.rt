// Locations of one or three doubles, each with the count of its decimals (document 01, "Numbers in values", row 23;
// document 02 §4). Values and Location have the definitions, LocationMarks what never is a location; `location_text`
// finds the values in a text. Stands on `double`, `decimal`, `chars`, `refusal`.
// The rules in words: docs/FORMAT.md, "Numbers in values".
#![tactic(auto)]

ghost use Rattle.std.specs.Prelude.{◌≡◌};
ghost use Rattle.location.specs.Location.{coordinate_of, placed, passed, value_count, one_of, three_of};

use refusal::{Refusal, Rule};

// A value of a location: its double, and how many digits stood after its point (document 02 §4).
#[derive(Clone, Copy)]
pub struct Coordinate {
    pub value: f64,
    pub decimals: u32,
}

// A location: x alone or x, y and z, how many there were, and of each how many digits stood after its point; absent
// ones are 0, and so are their counts.
#[derive(Clone, Copy)]
pub struct Coordinates {
    pub x: f64,
    pub y: f64,
    pub z: f64,
    pub count: u32,
    pub x_decimals: u32,
    pub y_decimals: u32,
    pub z_decimals: u32,
}

// The double that a text is, beside the count of its decimals: the text is read once for both.
#[tactic(auto, unfolding(crate::specs::Location::coordinate_of, double::specs::Double::double_of, double::specs::Double::on_number))]
fn coordinate_in(text: &[u8]) -> Result<Coordinate, Refusal>
    ensures { result ≡ coordinate_of text.now }
{
    let answer = decimal::number(text);
    let Ok(n) = answer else {
        return answer.and(Err(refusal::of_file(Rule::NoNumber, 0)));
    };
    Ok(Coordinate {
        value: double::double_from(n)?,
        decimals: n.decimals,
    })
}

// The same of a value of a location: the place of a refusal is where the value starts.
fn coordinate_at(at: usize, text: &[u8]) -> Result<Coordinate, Refusal>
    ensures { result ≡ placed at (coordinate_of text.now) }
{
    coordinate_in(text).map_err(|r| Refusal { place: at, ..r })
}

// Refusal 23: neither one nor three values.
pub fn value_count() -> Result<Coordinates, Refusal>
    ensures { result ≡ value_count }
{
    Err(refusal::of_file(Rule::ValueCount, 0))
}

// The refusal of a value's answer that is no double, passed up. (Of a double it is never asked.)
fn passed(answer: Result<Coordinate, Refusal>) -> Result<Coordinates, Refusal>
    ensures { result ≡ passed answer }
{
    match answer {
        Ok(_) => Err(refusal::of_file(Rule::NoNumber, 0)),
        Err(r) => Err(r),
    }
}

// x alone, which starts at a.
pub fn one(a: usize, x: &[u8]) -> Result<Coordinates, Refusal>
    ensures { result ≡ one_of (a, x.now) }
{
    let first = coordinate_at(a, x);
    let Ok(u) = first else {
        return passed(first);
    };
    Ok(Coordinates {
        x: u.value,
        y: 0.0,
        z: 0.0,
        count: 1,
        x_decimals: u.decimals,
        y_decimals: 0,
        z_decimals: 0,
    })
}

// x, y and z, which start at a, b and c.
pub fn three(
    a: usize,
    x: &[u8],
    b: usize,
    y: &[u8],
    c: usize,
    z: &[u8],
) -> Result<Coordinates, Refusal>
    ensures { result ≡ three_of (a, x.now) (b, y.now) (c, z.now) }
{
    let first = coordinate_at(a, x);
    let Ok(u) = first else {
        return passed(first);
    };
    let second = coordinate_at(b, y);
    let Ok(v) = second else {
        return passed(second);
    };
    let third = coordinate_at(c, z);
    let Ok(w) = third else {
        return passed(third);
    };
    Ok(Coordinates {
        x: u.value,
        y: v.value,
        z: w.value,
        count: 3,
        x_decimals: u.decimals,
        y_decimals: v.decimals,
        z_decimals: w.decimals,
    })
}
