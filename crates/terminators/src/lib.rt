// The terminators of strings and of lines, as the file block tells them (document 01, "The file block", row 6).
// Terminators has the definitions, TerminatorLaws what a good one is. Stands on `note`, `chars`, `word`. f is the
// image, the first `n` bytes of the lent buffer, or no more than its first 32.
// The rules in words: docs/FORMAT.md, "The file block".
#![tactic(auto)]

ghost use Rattle.std.specs.Prelude.{◌≡◌, true, ◌+◌, ◌≤◌, length};
ghost use Rattle.word.specs.Part.{PartOf};
ghost use Rattle.chars.specs.Chars.{control};
ghost use Rattle.terminators.specs.Terminators.{terminator_at, terminator_span, string_end, line_end, good_terminator};
ghost use Rattle.terminators.specs.Terminators.{lacks, apart, bad_lines};

fn is_control(c: u8) -> bool
    ensures { result ≡ control c }
{
    c <= 31 && c != b'\t'
}

// Whether the terminator whose length stands at a place may be used.
pub fn is_good(f: &[u8], at: usize) -> bool
    requires { at + 3 ≤ length f.now }
    ensures { result ≡ good_terminator f.now at }
{
    match f[at] {
        1 => is_control(f[at + 1]),
        2 => is_control(f[at + 1]) && is_control(f[at + 2]),
        _ => false,
    }
}

// A good terminator's characters, as the caller's own bytes.
fn terminator(f: &[u8], at: usize) -> &[u8]
    requires { (at + 3 ≤ length f.now) × (good_terminator f.now at ≡ true) }
    ensures result_value { result.now ≡ terminator_at f.now at }
    ensures own { PartOf f.entry (terminator_span f.now at) result }
{
    let from = at + 1;
    let to = from + word::wide(f[at]);
    &f[from..to]
}

// The string terminator, likewise.
pub fn string_end(f: &[u8]) -> &[u8]
    requires { (11 ≤ length f.now) × (good_terminator f.now 8 ≡ true) }
    ensures result_value { result.now ≡ string_end f.now }
    ensures own { PartOf f.entry (terminator_span f.now 8) result }
{
    terminator(f, 8)
}

// The line terminator, likewise.
pub fn line_end(f: &[u8]) -> &[u8]
    requires { (14 ≤ length f.now) × (good_terminator f.now 11 ≡ true) }
    ensures result_value { result.now ≡ line_end f.now }
    ensures own { PartOf f.entry (terminator_span f.now 11) result }
{
    terminator(f, 11)
}

fn is_lacking(u: &[u8], b: u8) -> bool
    ensures { result ≡ lacks u.now b }
{
    u.iter().all(|x| *x != b)
}

// Whether two terminators share no character. Not by `contains`, which is made for long texts and takes a frame.
fn is_apart(t: &[u8], u: &[u8]) -> bool
    ensures { result ≡ apart t.now u.now }
{
    t.iter().all(|b| is_lacking(u, *b))
}

// Whether the line terminator is bad, or shares a character with the string terminator, which is good.
pub fn is_bad_lines(f: &[u8]) -> bool
    requires { (14 ≤ length f.now) × (good_terminator f.now 8 ≡ true) }
    ensures { result ≡ bad_lines f.now }
{
    !is_good(f, 11) || !is_apart(string_end(f), line_end(f))
}
