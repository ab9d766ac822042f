// One string for a question: where its keyword, its separators and its value stand (document 01, "Strings"), in any
// manner of reading. The definition is strings/Strings `entry_of`. Stands on `strings`, `chars`.
// The rules in words: docs/FORMAT.md, "Strings".
#![tactic(auto)]

ghost use Rattle.std.specs.Prelude.{◌≡◌, ◌+◌, ◌<◌, length};
ghost use Rattle.strings.specs.Strings.{entry_of};

use chars::Kind;
use strings::Place;
use text::Manner;

// The string that l starts with, at place `at` of the file, for a question: where it stands and its size, or none.
pub fn entry_at(l: &[u8], high: bool, t: &[u8], at: usize, how: Manner) -> Option<(Place, usize)>
    requires { at + length l.now < 18446744073709551616 }
    ensures { result ≡ entry_of how high t.now l.now at }
{
    match strings::framed(l, high, t, how) {
        Ok(Some(o)) => {
            let end = o - t.len();
            let b = &l[2..end];
            let n = chars::run(Kind::Solid, b);
            let m = chars::run(Kind::Blank, &b[n..]);
            let key = at + 2;
            let gap = key + n;
            let place = Place {
                key,
                gap,
                value: gap + m,
                end: at + end,
            };
            Some((place, o))
        }
        Ok(None) => None,
        Err(_) => None,
    }
}
