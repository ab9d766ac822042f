// A location in its text (document 01, "Numbers in values", row 23; document 02, §4): the values that stand there, one
// or three, and what they are. The definitions are location/Location. Stands on `location`, `front_bytes`,
// `chars`, `refusal`.
// The rules in words: docs/FORMAT.md, "Numbers in values".
#![tactic(auto)]

ghost use Rattle.std.specs.Prelude.{◌≡◌, ◌≤◌, length};
ghost use Rattle.chars.specs.Chars.{is_of};
ghost use Rattle.location.specs.Location.{over};
ghost use Rattle.location.specs.Location.{location_of};

use chars::Kind;
use location::Coordinates;
use refusal::Refusal;

// From place i on, past the bytes of a kind.
fn over(kind: Kind, text: &[u8], i: usize) -> usize
    requires { i ≤ length text.now }
    ensures { (result ≡ over (is_of kind) text.now i) × (i ≤ result) × (result ≤ length text.now) }
{
    i + chars::run(kind, front_bytes::behind(text, i))
}

// The location that a text is (document 01, "Numbers in values"): how many values there are is judged before any of
// them.
pub fn location(text: &[u8]) -> Result<Coordinates, Refusal>
    ensures { result ≡ location_of text.now }
{
    let n = text.len();
    let a = over(Kind::Blank, text, 0);
    if n <= a {
        return location::value_count();
    }
    let b = over(Kind::Solid, text, a);
    let c = over(Kind::Blank, text, b);
    if n <= c {
        return location::one(a, &text[a..b]);
    }
    let d = over(Kind::Solid, text, c);
    let e = over(Kind::Blank, text, d);
    if n <= e {
        return location::value_count();
    }
    let f = over(Kind::Solid, text, e);
    let g = over(Kind::Blank, text, f);
    if g < n {
        return location::value_count();
    }
    location::three(a, &text[a..b], c, &text[c..d], e, &text[e..f])
}
