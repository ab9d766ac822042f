// Characters by their kind, and runs of them (document 01, "Strings"): which bytes a keyword's separators, a value, a
// number and a line of a sheet have. Chars and Runs have the definitions. Stands on `word` and `refusal`, for laws
// alone.
// The rules in words: docs/FORMAT.md, "Strings".
#![tactic(auto)]

ghost use Rattle.std.specs.Prelude.{◌≡◌, ◌≤◌, length};
ghost use Rattle.chars.specs.Chars.{value_char, is_of};
ghost use Rattle.chars.specs.Runs.{run, all, same};

// What a run is made of: blanks (spaces and tabs), what is no blank, digits, the characters that nearly all keywords
// have (33 to 96), what stands before the end of a sheet's line, the codes from 32 to 126, a value's characters.
#[derive(Clone, Copy)]
pub enum Kind {
    Blank,
    Solid,
    Digit,
    Capital,
    Line,
    Printed,
    Value,
}

pub fn is(kind: Kind, b: u8) -> bool
    ensures { result ≡ is_of kind b }
{
    match kind {
        Kind::Blank => matches!(b, b' ' | b'\t'),
        Kind::Solid => !matches!(b, b' ' | b'\t'),
        Kind::Digit => b.is_ascii_digit(),
        Kind::Capital => matches!(b, 33..=96),
        Kind::Line => b != b'\n',
        Kind::Printed => matches!(b, 32..=126),
        Kind::Value => matches!(b, 32..=126 | b'\t'),
    }
}

// How many bytes of a kind stand first.
pub fn run(kind: Kind, s: &[u8]) -> usize
    ensures { (result ≡ run (is_of kind) s.now) × (result ≤ length s.now) }
{
    s.iter().take_while(|b| is(kind, **b)).count()
}

// Whether all are of a kind. The loop has no early way out, so that a compiler can test many at a time.
pub fn all(kind: Kind, s: &[u8]) -> bool
    ensures { result ≡ all (is_of kind) s.now }
{
    s.iter().fold(true, |ok, b| ok & is(kind, *b))
}

// Whether all are value characters. Few values have a tab.
pub fn all_value(s: &[u8]) -> bool
    ensures { result ≡ all value_char s.now }
{
    all(Kind::Printed, s) || all(Kind::Value, s)
}

// Whether two texts are the same. Not by `==`, which is a call for texts of four bytes or more: this calls nothing.
pub fn is_same(p: &[u8], k: &[u8]) -> bool
    ensures { result ≡ same p.now k.now }
{
    p.len() == k.len() && p.iter().zip(k).all(|(a, b)| a == b)
}
