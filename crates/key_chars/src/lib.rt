// The characters of a keyword (document 01, "Strings"; document 02, §11), in the manner of reading. The definition is
// text/Manner `letter`, as all that a manner decides stands there. Stands on `text`, `letters`, `chars`, and on `word`
// for laws alone.
// The rules in words: docs/FORMAT.md, "Strings".
#![tactic(auto)]

ghost use Rattle.std.specs.Prelude.{◌≡◌, ◌&&◌, ◌≤◌, length, ltb};
ghost use Rattle.chars.specs.Runs.{run};
ghost use Rattle.text.specs.Manner.{letter};

use chars::Kind;
use text::Manner;

// Whether a byte is a keyword's character.
fn key_char(b: u8, how: Manner) -> bool
    ensures { result ≡ letter how b }
{
    match how {
        Manner::Strict => matches!(b, 33..=96 | 123..=126),
        Manner::Lenient => letters::is_loose(b),
    }
}

// Whether a byte is a keyword's character and no capital. Most keywords end at a blank, which is none in any manner.
fn is_other(b: u8, how: Manner) -> bool
    ensures { result ≡ (ltb 96 b && letter how b) }
{
    96 < b && key_char(b, how)
}

// How many keyword characters stand first. Nearly all are capitals, which are counted without asking for the manner; runs
// of these and of others take turns.
pub fn key_run(s: &[u8], how: Manner) -> usize
    ensures { (result ≡ run (letter how) s.now) × (result ≤ length s.now) }
{
    let mut i: usize = 0;
    while i < s.len() {
        i += chars::run(Kind::Capital, &s[i..]);
        let others = s[i..].iter().take_while(|b| is_other(**b, how)).count();
        if others == 0 {
            return i;
        }
        i += others;
    }
    i
}
