// What a NOTE may hold where its line terminator is one byte, or two that differ (document 01, "Strings"): a byte, and
// for two the byte before it, tells. NoteBytes has the definitions. Stands on `chars`.
// The rules in words: docs/FORMAT.md, "Strings".
#![tactic(auto)]

ghost use Rattle.std.specs.Prelude.{◌≡◌, false};
ghost use Rattle.chars.specs.Runs.{all};
ghost use Rattle.note_bytes.specs.NoteBytes.{value_or, paired};

use chars::Kind;

// Whether all are value characters or the byte x. No early way out, as in `all_value`.
pub fn all_value_or(x: u8, s: &[u8]) -> bool
    ensures { result ≡ all (value_or x) s.now }
{
    s.iter().fold(true, |ok, b| ok & (chars::is(Kind::Value, *b) | (*b == x)))
}

// Whether all are value characters, or a with b behind it. No early way out either: what a byte may be is told by
// whether an a stands before it.
pub fn all_value_pairs(a: u8, b: u8, s: &[u8]) -> bool
    ensures { result ≡ paired a b false s.now }
{
    let mut ok = true;
    let mut behind = false;
    for c in s {
        ok &= (behind & (*c == b)) | (!behind & (chars::is(Kind::Value, *c) | (*c == a)));
        behind = *c == a;
    }
    ok & !behind
}
