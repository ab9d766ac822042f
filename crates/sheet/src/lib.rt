// Sheets: strings as lines of text, checked line by line and measured (document 01, "What we write", rows 25 to 27).
// Lines and Area have the definitions, Paper the second view: a sheet is taken exactly where its lines keep the rules.
// Stands on `sheet_line`, `strings`, `text`, `word`, `refusal`. A sheet is the bytes of its lines, each ended by 0Ah; t
// is the file's string terminator, u its line terminator.
// The rules in words: docs/FORMAT.md, "What we write".
#![tactic(auto)]

ghost use Rattle.std.specs.Prelude.{◌≡◌, ◌+◌, ◌≤◌};
ghost use Rattle.sheet.specs.Area.{area_most, measured_of};
ghost use Rattle.sheet.specs.Sizes.{line_cost, capped};

use refusal::{Refusal, Rule};

// "An area is at most 65,500 bytes": `area_most` of the definitions. Whatever is over it is counted as one more.
pub const AREA: usize = 65500;

const OVER: usize = 65501;

// A sum that stops at the limit: whatever is over 65,500 counts as 65,501, so that no sheet is too long to be counted.
fn add(n: usize, m: usize) -> usize
    ensures { (result ≡ capped (n + m)) × (result ≤ area_most + 1) }
{
    n.saturating_add(m).min(OVER)
}

// What a line adds to the area: its keyword has w bytes, its value v, the terminators t and u.
fn grown(n: usize, more: bool, w: usize, v: usize, t: &[u8], u: &[u8]) -> usize
    ensures { (result ≡ capped (n + line_cost t.now u.now more w v)) × (result ≤ area_most + 1) }
{
    if more {
        return add(add(n, u.len()), v);
    }
    add(add(add(add(n, 3), w), v), t.len())
}

// The check of a sheet, and the size of the area that it is written as in a file with these terminators.
pub fn measure(sheet: &[u8], t: &[u8], u: &[u8]) -> Result<usize, Refusal>
    ensures { result ≡ measured_of t.now u.now sheet.now }
{
    let mut at: usize = 0;
    let mut k: usize = 0;
    let mut g: usize = 0;
    let mut n: usize = 2;
    while at < sheet.len() {
        let (o, w) = sheet_line::step_at(&sheet[at..], &sheet[k..g], at)?;
        let e = at + w;
        let more = sheet_line::is_continued(&sheet[k..g], &sheet[at..e]);
        n = grown(n, more, w, o - w - 1, t, u);
        k = at;
        g = e;
        at += o + 1;
    }
    let size = word::round_up(n);
    let over = AREA < size;
    if over {
        return Err(refusal::of_file(Rule::AreaSize, 0));
    }
    Ok(size)
}
