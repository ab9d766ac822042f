// One string of an area, for a search that ends before the area does (document 02, §5): rows 14 to 17, by the
// definitions of `strings`, once more in code. A function with one caller becomes part of it; `string_step::step_at` and
// what it calls, called by the search too, would be calls of their own in the check of every area, which would be
// slower and need more stack (docs/DECISIONS.md, "Document 02, §5"). Stands on `strings`, `note`, `text`. t is the
// string terminator, u the line terminator, `high` the byte order.
// The rules in words: docs/FORMAT.md, "Strings".
#![tactic(auto)]

ghost use Rattle.std.specs.Prelude.{◌≡◌, ◌<◌, length};
ghost use Rattle.note.specs.Note.{value_ok};
ghost use Rattle.strings.specs.Strings.{judged_of, step_of};

use chars::Kind;
use refusal::{Part, Refusal, Rule};
use text::Manner;

// Whether v may be the value of the keyword k.
fn is_value(u: &[u8], k: &[u8], v: &[u8]) -> bool
    requires { 0 < length u.now }
    ensures { result ≡ value_ok u.now k.now v.now }
{
    if key_order::is_note(k) {
        return note::all_lines(u, v);
    }
    chars::all(Kind::Value, v)
}

// Rows 16 and 17 of what stands between the offset and the terminator, a keyword and its value: how long the keyword is;
// prev is the keyword before.
fn judge(b: &[u8], u: &[u8], prev: &[u8]) -> Result<usize, Rule>
    requires { 0 < length u.now }
    ensures { result ≡ judged_of Manner.Strict u.now prev.now b.now }
{
    let n = key_chars::key_run(b, Manner::Strict);
    if n == 0 {
        return Err(Rule::Character);
    }
    let r = &b[n..];
    let g = chars::run(Kind::Blank, r);
    if (g == 0) & (0 < r.len()) {
        return Err(Rule::Character);
    }
    let k = &b[..n];
    if !is_value(u, k, &r[g..]) {
        return Err(Rule::Character);
    }
    if !key_order::rising(prev, k) {
        return Err(Rule::KeywordOrder);
    }
    Ok(n)
}

// Rows 14 to 17 of the string that l starts with, which stands at place `at` of the file: its size and its keyword's
// length, none at the end of the list, or the refusal.
pub fn step(
    l: &[u8],
    high: bool,
    t: &[u8],
    u: &[u8],
    whose: Part,
    prev: &[u8],
    at: usize,
) -> Result<Option<(usize, usize)>, Refusal>
    requires { 0 < length u.now }
    ensures { result ≡ step_of Manner.Strict high t.now u.now whose prev.now
        l.now at }
{
    let Some(o) = refusal::placed(strings::framed(l, high, t, Manner::Strict), whose, at)? else {
        return Ok(None);
    };
    let end = o - t.len();
    let n = refusal::placed(judge(&l[2..end], u, prev), whose, at)?;
    Ok(Some((o, n)))
}
