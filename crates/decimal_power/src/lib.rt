// The power of ten of a number (document 01, "Numbers in values"): that behind E, lowered by the digits behind the point.
// Power has the definitions. Stands on `word`.
// The rules in words: docs/FORMAT.md, "Numbers in values".
#![tactic(auto)]

ghost use Rattle.std.specs.Prelude.{◌≡◌, ◌<◌};
ghost use Rattle.decimal_power.specs.Power.{signed, power_of};

// A number that fits, with a sign.
fn signed(minus: bool, n: u32) -> i32
    requires { n < 2147483648 }
    ensures { result ≡ signed minus n }
{
    if minus { -(n as i32) } else { n as i32 }
}

// The power of ten that an exponent and n digits behind the point make.
pub fn power(down: bool, e: u32, n: u32) -> i32
    requires { (e < 100) × (n < 100) }
    ensures { result ≡ power_of down e n }
{
    if down {
        signed(true, e + n)
    } else if n <= e {
        signed(false, e - n)
    } else {
        signed(true, n - e)
    }
}
