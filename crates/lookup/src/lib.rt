// Questions on the list of strings that an area spells: how many, the i-th, the one with a keyword, each by its place
// in the lent file (document 01, "Strings"), in any manner of reading. The definitions are those of `strings`; Lists
// has what a walk along the list needs. Stands on `string_entry`, `text`.
// The rules in words: docs/FORMAT.md, "Strings".
#![tactic(auto)]

ghost use Rattle.std.specs.Prelude.{◌≡◌, ◌≤◌, length};
ghost use Rattle.word.specs.Part.{part};
ghost use Rattle.strings.specs.Strings.{places_of, nth_of, find_of};

use strings::Place;
use text::Manner;

// How many strings the area from a to e of f has.
pub fn count(f: &[u8], a: usize, e: usize, high: bool, t: &[u8], how: Manner) -> usize
    requires { (a ≤ e) × (e ≤ length f.now) }
    ensures { result ≡ length (places_of how high t.now (part a e f.now) a) }
{
    let mut at = a;
    let mut n: usize = 0;
    while at < e {
        let Some((_, o)) = string_entry::entry_at(&f[at..e], high, t, at, how) else {
            return n;
        };
        n += 1;
        at += o;
    }
    n
}

// The i-th string, counted from 0.
pub fn nth(
    f: &[u8],
    a: usize,
    e: usize,
    high: bool,
    t: &[u8],
    i: usize,
    how: Manner,
) -> Option<Place>
    requires { (a ≤ e) × (e ≤ length f.now) }
    ensures { result ≡ nth_of (places_of how high t.now (part a e f.now) a) i }
{
    let mut at = a;
    let mut k = i;
    while at < e {
        let (p, o) = string_entry::entry_at(&f[at..e], high, t, at, how)?;
        let here = k == 0;
        if here {
            return Some(p);
        }
        k -= 1;
        at += o;
    }
    None
}

// The string with a keyword: the first that counts as it. Any bytes may be asked for.
pub fn find(
    f: &[u8],
    a: usize,
    e: usize,
    high: bool,
    t: &[u8],
    key: &[u8],
    how: Manner,
) -> Option<Place>
    requires { (a ≤ e) × (e ≤ length f.now) }
    ensures { result ≡ find_of how f.now (places_of how high t.now (part a e f.now) a)
        key.now }
{
    let mut at = a;
    while at < e {
        let (p, o) = string_entry::entry_at(&f[at..e], high, t, at, how)?;
        let from = p.key;
        let to = p.gap;
        if text::is_named(&f[from..to], key, how) {
            return Some(p);
        }
        at += o;
    }
    None
}
