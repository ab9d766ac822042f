// One line of a sheet, checked (document 01, "What we write", rows 25 and 26). SheetLine has the definitions, Judging
// the laws. Stands on `strings`, `text`, `chars`, `refusal`. A sheet is the bytes of its lines, each ended by 0Ah.
// The rules in words: docs/FORMAT.md, "What we write".
#![tactic(auto)]

ghost use Rattle.std.specs.Prelude.{◌≡◌, ◌≤◌, length};
ghost use Rattle.sheet_line.specs.SheetLine.{line_len, spaced, continues, line_judged, line_step};

use chars::Kind;
use refusal::{Part, Refusal, Rule};
use text::Manner;

// The length of the first line, without its end.
pub fn line_len(s: &[u8]) -> usize
    ensures { (result ≡ line_len s.now) × (result ≤ length s.now) }
{
    chars::run(Kind::Line, s)
}

// Whether a value starts with a space.
fn is_spaced(v: &[u8]) -> bool
    ensures { result ≡ spaced v.now }
{
    v.first() == Some(&32)
}

// Whether a line with the keyword k is a further line of the NOTE before it.
pub fn is_continued(prev: &[u8], k: &[u8]) -> bool
    ensures { result ≡ continues prev.now k.now }
{
    key_order::is_note(prev) & key_order::is_note(k)
}

// Rows 25 and 26 of a line without its end: the length of its keyword, or the rule; prev is the keyword before.
fn judge(l: &[u8], prev: &[u8]) -> Result<usize, Rule>
    ensures { result ≡ line_judged prev.now l.now }
{
    let n = key_chars::key_run(l, Manner::Strict);
    if n == 0 || l.len() <= n || l[n] != 9 {
        return Err(Rule::SheetLine);
    }
    let v = &l[n + 1..];
    if !chars::all(Kind::Printed, v) {
        return Err(Rule::SheetLine);
    }
    let k = &l[..n];
    let more = is_continued(prev, k);
    if is_spaced(v) && !more {
        return Err(Rule::SheetLine);
    }
    let ordered = more || key_order::rising(prev, k);
    if !ordered {
        return Err(Rule::SheetOrder);
    }
    Ok(n)
}

// Rows 25 and 26 of the line that s starts with, at place `at` of the sheet: the lengths of the line and of its keyword.
pub fn step_at(s: &[u8], prev: &[u8], at: usize) -> Result<(usize, usize), Refusal>
    ensures { result ≡ line_step prev.now s.now at }
{
    let n = line_len(s);
    if s.len() <= n {
        return Err(refusal::of_file(Rule::SheetLine, at));
    }
    let w = refusal::placed(judge(&s[..n], prev), Part::File, at)?;
    Ok((n, w))
}
