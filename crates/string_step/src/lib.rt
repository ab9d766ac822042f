// One string judged whole, a step of the check (document 01, "Strings", rows 14 to 17). The definitions are
// strings/Strings, as the second view speaks of all four rows. Stands on `strings` for rows 14 and 15, on `key_chars`,
// `note` and `text` for 16 and 17.
// The rules in words: docs/FORMAT.md, "Strings".
#![tactic(auto)]

ghost use Rattle.std.specs.Prelude.{◌≡◌, ◌<◌, length};
ghost use Rattle.strings.specs.Strings.{judged_of, step_of};

use chars::Kind;
use refusal::{Part, Refusal, Rule};
use text::Manner;

// Rows 16 and 17 of what stands between the offset and the terminator, a keyword and its value: how long the keyword is;
// prev is the keyword before.
fn judge(b: &[u8], u: &[u8], prev: &[u8], how: Manner) -> Result<usize, Rule>
    requires { 0 < length u.now }
    ensures { result ≡ judged_of how u.now prev.now b.now }
{
    let n = key_chars::key_run(b, how);
    if n == 0 {
        return Err(Rule::Character);
    }
    let r = &b[n..];
    let g = chars::run(Kind::Blank, r);
    if (g == 0) & (0 < r.len()) {
        return Err(Rule::Character);
    }
    let k = &b[..n];
    if !note::value_ok(u, k, &r[g..], how) {
        return Err(Rule::Character);
    }
    if !text::following(prev, k, how) {
        return Err(Rule::KeywordOrder);
    }
    Ok(n)
}

// Rows 14 to 17 of the string that l starts with, which stands at place `at` of the file: its size and its keyword's
// length, none at the end of the list, or the refusal.
pub fn step_at(
    l: &[u8],
    high: bool,
    t: &[u8],
    u: &[u8],
    whose: Part,
    prev: &[u8],
    at: usize,
    how: Manner,
) -> Result<Option<(usize, usize)>, Refusal>
    requires { 0 < length u.now }
    ensures { result ≡ step_of how high t.now u.now whose prev.now l.now
        at }
{
    let Some(o) = refusal::placed(strings::framed(l, high, t, how), whose, at)? else {
        return Ok(None);
    };
    let end = o - t.len();
    let n = refusal::placed(judge(&l[2..end], u, prev, how), whose, at)?;
    Ok(Some((o, n)))
}
