// What the bits of an integer sample mean (document 01, "Samples"): two's complement of codes 1 and 2, exponent and
// mantissa of code 3. SampleBits has the definitions, BitLaws the laws. Stands on `word`.
// The rules in words: docs/FORMAT.md, "Samples".
#![tactic(auto)]

ghost use Rattle.std.specs.Prelude.{◌≡◌, ◌<◌};
ghost use Rattle.sample_bits.specs.SampleBits.{twos, exponent_in, ones, scaled};

// ---- codes 1 and 2

// Two's complement of 16 bits.
pub fn twos16(n: u16) -> i16
    ensures { result ≡ twos 32768 n }
{
    u16::cast_signed(n)
}

// Two's complement of 32 bits.
pub fn twos32(n: u32) -> i32
    ensures { result ≡ twos 2147483648 n }
{
    u32::cast_signed(n)
}

// ---- code 3

// Exponent k out of the first word of a group: "sample 0 in bits 0-3, sample 3 in bits 12-15".
pub fn exponent_in(word: u16, k: u16) -> u16
    requires { k < 4 }
    ensures { (result ≡ exponent_in word k) × (result < 16) }
{
    word >> 4 * k & 15
}

// A mantissa: one's complement of 16 bits.
fn ones(mantissa: u16) -> i32
    ensures { result ≡ ones mantissa }
{
    if mantissa < 32768 {
        mantissa as i32
    } else {
        mantissa as i32 - 65535
    }
}

// A mantissa, times 2 to the exponent. The sign comes in first, and one shift serves both.
pub fn scaled(exponent: u16, mantissa: u16) -> i32
    requires { exponent < 16 }
    ensures { result ≡ scaled exponent mantissa }
{
    ones(mantissa) << exponent as i32
}
