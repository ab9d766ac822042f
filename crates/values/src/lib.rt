// The values of keywords (document 01, "Strings", "Numbers in values"; rows 20 to 23): as the caller's own bytes, and as
// the numbers that they are. Every question checks the whole file first. The definitions are reader/Questions. Stands on
// `string_answers`, `value_part`, `location_text`, `double`, `decimal`.
// The rules in words: docs/FORMAT.md, "Numbers in values".
#![tactic(auto)]

ghost use Rattle.std.specs.Prelude.{◌≡◌, length, Err};
ghost use Rattle.word.specs.Part.{PartOf};
ghost use Rattle.reader.specs.Questions.{value_there, value_answer, span_answer, number_answer, double_answer};
ghost use Rattle.reader.specs.Questions.{location_answer, on_string};
ghost use Rattle.decimal.specs.Number.{number_in};
ghost use Rattle.double.specs.Double.{double_of};
ghost use Rattle.location.specs.Location.{location_of};
ghost use Rattle.reader.specs.Leaves.{Within};

use decimal_parts::Decimal;
use location::Coordinates;
use refusal::Refusal;
use strings::Place;
use text::Manner;

// "the other answers the value as the caller's own bytes, not a copy, and for a no or a refusal the empty part".
pub fn value<'a>(buffer: &'a [u8], n: usize, part: i32, key: &[u8], how: Manner) -> &'a [u8]
    ensures result_value { result.now ≡ value_answer how buffer.now n part key.now }
    ensures own { PartOf buffer.entry (span_answer how buffer.now n part key.now) result }
{
    value_part::value_at(buffer, string_answers::find(buffer, n, part, key, how))
}

// ---- numbers in values; an absent keyword has the empty value, which is no number and no location

// Of a string that was looked for: its own refusal, or the number that its value is.
pub fn number_of(buffer: &[u8], s: Result<Option<Place>, Refusal>) -> Result<Decimal, Refusal>
    requires { Within (length buffer.now) s }
    ensures { result ≡ on_string Err s (number_in (value_there buffer.now s)) }
{
    s?;
    decimal::number(value_part::value_at(buffer, s))
}

pub fn double_of(buffer: &[u8], s: Result<Option<Place>, Refusal>) -> Result<f64, Refusal>
    requires { Within (length buffer.now) s }
    ensures { result ≡ on_string Err s (double_of (value_there buffer.now s)) }
{
    s?;
    double::double(value_part::value_at(buffer, s))
}

pub fn location_of(buffer: &[u8], s: Result<Option<Place>, Refusal>) -> Result<Coordinates, Refusal>
    requires { Within (length buffer.now) s }
    ensures { result ≡ on_string Err s (location_of (value_there buffer.now s)) }
{
    s?;
    location_text::location(value_part::value_at(buffer, s))
}

// Of a part's keyword.
pub fn number(
    buffer: &[u8],
    n: usize,
    part: i32,
    key: &[u8],
    how: Manner,
) -> Result<Decimal, Refusal>
    ensures { result ≡ number_answer how buffer.now n part key.now }
{
    number_of(buffer, string_answers::find(buffer, n, part, key, how))
}

pub fn double(buffer: &[u8], n: usize, part: i32, key: &[u8], how: Manner) -> Result<f64, Refusal>
    ensures { result ≡ double_answer how buffer.now n part key.now }
{
    double_of(buffer, string_answers::find(buffer, n, part, key, how))
}

pub fn location(
    buffer: &[u8],
    n: usize,
    part: i32,
    key: &[u8],
    how: Manner,
) -> Result<Coordinates, Refusal>
    ensures { result ≡ location_answer how buffer.now n part key.now }
{
    location_of(buffer, string_answers::find(buffer, n, part, key, how))
}
