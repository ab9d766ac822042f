// What the numbers of a trace block may be (document 01, rows 8 and 10 to 13): the test of each row, on numbers alone.
// Limits has the definitions. Stands on `sample`, as row 13 asks for the needed bytes of a code.
// The rules in words: docs/FORMAT.md, "The trace block".
#![tactic(auto)]

ghost use Rattle.std.specs.Prelude.{◌≡◌, ◌<◌};
ghost use Rattle.limits.specs.Limits.{bad_pointer, bad_block, bad_data, bad_code, bad_samples};

// Row 8.
pub fn is_bad_pointer(end: usize, prev: usize, p: usize) -> bool
    requires { p < 4294967296 }
    ensures { result ≡ bad_pointer end prev p }
{
    (p % 4 != 0) | ((p < prev) | (end < p + 32))
}

// Row 10.
pub fn is_bad_block(end: usize, p: usize, b: usize) -> bool
    requires { (p < 4294967296) × (b < 65536) }
    ensures { result ≡ bad_block end p b }
{
    (b < 32) | ((b % 4 != 0) | (end < p + b))
}

// Row 11.
pub fn is_bad_data(end: usize, at: usize, d: usize) -> bool
    requires { (at < 8589934592) × (d < 4294967296) }
    ensures { result ≡ bad_data end at d }
{
    (d % 4 != 0) | (end < at + d)
}

// Row 12.
pub fn is_bad_code(c: u8) -> bool
    ensures { result ≡ bad_code c }
{
    (c < 1) | (5 < c)
}

// Row 13.
pub fn is_bad_samples(c: u8, s: u32, d: usize) -> bool
    ensures { result ≡ bad_samples c s d }
{
    ((c == 3) & (s % 4 != 0)) | (d < sample::needed(c, s))
}
