// Whole numbers of 2, 4 and 8 bytes in either order, at a place of a slice; bytes stored from a place on; magnitudes;
// rounding up to 4. Word, Put and Part have the definitions; Tests and Signed the laws of tests and of signed numbers
// that all crates use. Stands on nothing.
// `high` says that the high byte comes first (document 01, "The file block").
// The rules in words: docs/FORMAT.md, "The file block".
#![tactic(auto)]

ghost use Rattle.std.specs.Prelude.{◌≡◌, ◌+◌, ◌-◌, ◌≤◌, ◌<◌, nat_abs, length};
ghost use Rattle.word.specs.Round.{round4};
ghost use Rattle.word.specs.Word.{word_at};

// A byte as a number that sums are made of. Its bound stands beside it, so that a caller's sum of words fits by itself.
pub fn wide(b: u8) -> usize
    ensures { (result ≡ b) × (result < 256) }
{
    b as usize
}

// The whole number of two bytes at a place.
pub fn word2(f: &[u8], high: bool, at: usize) -> usize
    requires { at + 2 ≤ length f.now }
    ensures { (result ≡ word_at 2 high f.now at) × (result < 65536) }
{
    let a = wide(f[at]);
    let b = wide(f[at + 1]);
    if high { a * 256 + b } else { b * 256 + a }
}

// The whole number of four bytes at a place.
pub fn word4(f: &[u8], high: bool, at: usize) -> usize
    requires { at + 4 ≤ length f.now }
    ensures { (result ≡ word_at 4 high f.now at) × (result < 4294967296) }
{
    let a = word2(f, high, at);
    let b = word2(f, high, at + 2);
    if high { a * 65536 + b } else { b * 65536 + a }
}

// The whole number of eight bytes at a place.
pub fn word8(f: &[u8], high: bool, at: usize) -> u64
    requires { at + 8 ≤ length f.now }
    ensures { (result ≡ word_at 8 high f.now at) × (result < 18446744073709551616) }
{
    let a = word4(f, high, at) as u64;
    let b = word4(f, high, at + 4) as u64;
    if high {
        a * 4294967296 + b
    } else {
        b * 4294967296 + a
    }
}

// How far a number is from 0. Of the least, which has no opposite, too.
pub fn magnitude(z: i32) -> u32
    ensures { result ≡ nat_abs z }
{
    if z < 0 { (!z) as u32 + 1 } else { z as u32 }
}

// The least multiple of 4 that is not below n.
pub fn round_up(n: usize) -> usize
    requires { n ≤ 18446744073709551612 }
    ensures { result ≡ round4 n }
{
    (n + 3) / 4 * 4
}
