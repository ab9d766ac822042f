// The check of one trace (document 01, rows 9 to 17; document 02, row 34), where its pointer was judged. The definitions
// are trace/Trace, with the law for each answer. Stands on `trace`, `block`, `strings_check`.
// The rules in words: docs/FORMAT.md, "Refusal numbers, in order of checking".
#![tactic(auto)]

ghost use Rattle.std.specs.Prelude.{◌≡◌, ◌+◌, ◌≤◌, ◌<◌, length};
ghost use Rattle.seek.specs.Sought.{checked_of};
ghost use Rattle.channel.specs.Channel.{channel_number};
ghost use Rattle.block.specs.Block.{block_answer};
ghost use Rattle.block.specs.BlockLaws.{head_at};
ghost use Rattle.trace.specs.Trace.{chosen_at, traced};

use block::TraceBlock;
use refusal::{Part, Refusal};
use text::Manner;

// Rows 9 to 13 of the trace k, whose block begins at p, and the block. A function that hands the answer on arm by arm, so
// that the memory that it comes back in is given back before the strings.
fn block_of(f: &[u8], high: bool, k: u16, p: usize) -> Result<TraceBlock, Refusal>
    requires { (p < 4294967296) × (p + 32 ≤ length f.now) }
    ensures { result ≡ block_answer high (head_at f.now p) (length f.now) k p }
{
    let from = p + 32;
    match block::block_rows(&f[p..from], high, f.len(), k, p) {
        Err(r) => Err(r),
        Ok(x) => Ok(x),
    }
}

// Rows 14 to 17 of its strings, which stand from a to e, and where the value of its channel number stands. A function for the same reason.
fn strings_of(
    f: &[u8],
    a: usize,
    e: usize,
    high: bool,
    t: &[u8],
    u: &[u8],
    k: u16,
    how: Manner,
) -> Result<Option<(usize, usize)>, Refusal>
    requires { (a ≤ e) × (e ≤ length f.now) × (0 < length u.now) }
    ensures { result ≡ checked_of how high t.now u.now (Part.Trace k) f.now a e
        channel_number }
{
    match strings_check::check(f, a, e, high, t, u, Part::Trace(k), how) {
        Err(r) => Err(r),
        Ok(value) => Ok(value),
    }
}

// Rows 9 to 17 and 34 of the trace k, whose block begins at p: where it ends, and whether the file's traces have a channel
// number; or the refusal.
pub fn check(
    f: &[u8],
    high: bool,
    t: &[u8],
    u: &[u8],
    with: bool,
    k: u16,
    p: usize,
    how: Manner,
) -> Result<(usize, bool), Refusal>
    requires { (p < 4294967296) × (p + 32 ≤ length f.now) × (0 < length u.now) }
    ensures { result ≡ traced how high t.now u.now f.now
        (chosen_at how high t.now f.now with k p) k p }
{
    let x = block_of(f, high, k, p)?;
    let end = p + x.b;
    let value = strings_of(f, p + 32, end, high, t, u, k, how)?;
    trace::numbered(f, with, k, p, value, end + x.d, how)
}
