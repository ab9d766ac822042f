// The value of a trace's keyword as the number that it is, quickly (document 02, §5): the search of quick/Quick, then
// rows 20 to 23 of the value as of the full questions; an absent keyword has the empty value. Stands on `quick`,
// `values`.
// The rules in words: docs/FORMAT.md, "One trace, quickly".
#![tactic(auto)]

ghost use Rattle.std.specs.Prelude.{◌≡◌};
ghost use Rattle.quick.specs.Quick.{quick_number, quick_double, quick_location};

use decimal_parts::Decimal;
use location::Coordinates;
use refusal::Refusal;

pub fn number(buffer: &[u8], n: usize, trace: i32, key: &[u8]) -> Result<Decimal, Refusal>
    ensures { result ≡ quick_number buffer.now n trace key.now }
{
    values::number_of(buffer, quick::find(buffer, n, trace, key))
}

pub fn double(buffer: &[u8], n: usize, trace: i32, key: &[u8]) -> Result<f64, Refusal>
    ensures { result ≡ quick_double buffer.now n trace key.now }
{
    values::double_of(buffer, quick::find(buffer, n, trace, key))
}

pub fn location(buffer: &[u8], n: usize, trace: i32, key: &[u8]) -> Result<Coordinates, Refusal>
    ensures { result ≡ quick_location buffer.now n trace key.now }
{
    values::location_of(buffer, quick::find(buffer, n, trace, key))
}
