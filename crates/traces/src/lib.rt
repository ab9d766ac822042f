// The traces of a file, one behind the other (document 01, rows 8 to 17; document 02, row 34). Traces has the rows in
// their order, Walk how the code goes through them. Stands on `trace_check`, `block`. f is the image; t and u are its
// terminators, `how` is the manner of reading.
// The rules in words: docs/FORMAT.md, "Refusal numbers, in order of checking".
#![tactic(auto)]

ghost use Rattle.std.specs.Prelude.{◌≡◌, ◌+◌, ◌*◌, ◌≤◌, ◌<◌, length};
ghost use Rattle.traces.specs.Walk.{next_of, pointed_from, InWord, Stands};

use refusal::Refusal;
use text::Manner;

// Row 8 of the trace k, behind what ends at prev: where its block begins. Behind the last trace it is the image's end.
pub fn next(f: &[u8], high: bool, n: u16, k: u16, prev: usize) -> Result<usize, Refusal>
    requires { 32 + 4 * n ≤ length f.now }
    ensures { (result ≡ next_of high f.now n k prev) × (k < n → InWord result) }
{
    if n <= k {
        return Ok(f.len());
    }
    let p = block::pointer(f, high, k);
    block::pointer_row(f.len(), k, prev, p)?;
    Ok(p)
}

// Each trace, 8 to 17 and 34, where row 8 of the first was asked and `first` is where it begins.
pub fn traces(
    f: &[u8],
    high: bool,
    t: &[u8],
    u: &[u8],
    n: u16,
    first: usize,
    how: Manner,
) -> Result<(), Refusal>
    requires { (32 + 4 * n ≤ length f.now) × (0 < length u.now) × Stands high f.now n 0 first }
    ensures { result ≡ pointed_from how high t.now u.now f.now n 0 }
{
    let mut k: u16 = 0;
    let mut p = first;
    let mut with = false;
    while k < n {
        let (end, all) = trace_check::check(f, high, t, u, with, k, p, how)?;
        k += 1;
        with = all;
        p = next(f, high, n, k, end)?;
    }
    Ok(())
}
