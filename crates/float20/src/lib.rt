// A sample of code 3, on numbers alone: its exponent and its mantissa, and the exponents of four in one word (document
// 01, "Samples"). Float20 has the definitions. Stands on `word`.
// The rules in words: docs/FORMAT.md, "Samples".
#![tactic(auto)]

ghost use Rattle.std.specs.Prelude.{◌≡◌, ◌+◌, ◌*◌, ◌<◌, nat_abs};
ghost use Rattle.float20.specs.Float20Laws.{Told, Coded};

// The smallest exponent that brings a magnitude to at most 32,767, found from its leading zeros: 17 of them leave 15
// bits. The low 15 bits count as set, so that a magnitude of fewer bits has 17 too, and no test is made.
fn exponent(n: u32) -> u32
    requires { n < 1073741824 }
    ensures { Told n result }
{
    17 - (n | 32767).leading_zeros()
}

// A sample of code 3, as it is written.
#[derive(Clone, Copy)]
pub struct Float20 {
    pub exponent: u32,
    pub mantissa: u16,
}

// The low bits are cut toward zero: of the magnitude, before the sign comes in.
pub fn float20_of(v: i32) -> Float20
    requires { nat_abs v < 1073741824 }
    ensures { Coded v result.exponent result.mantissa }
{
    let n = word::magnitude(v);
    let e = exponent(n);
    let t = (n >> e) as u16;
    let mantissa = if v < 0 { 65535 - t } else { t };
    Float20 {
        exponent: e,
        mantissa,
    }
}

// The exponents of four samples in one word, that of sample 0 in bits 0-3.
pub fn exponents(a: u32, b: u32, c: u32, d: u32) -> u32
    requires { (a < 16) × (b < 16) × (c < 16) × (d < 16) }
    ensures { result ≡ a + 16 * b + 256 * c + 4096 * d }
{
    d << 12 | c << 8 | b << 4 | a
}
