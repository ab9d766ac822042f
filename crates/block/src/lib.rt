// The trace block (document 01, "The trace block", rows 8 to 13): its pointer, sizes, format code and sample count.
// Block has the definitions, BlockLaws what a trace that passes the rows has. Stands on `limits`, `word`, `refusal`.
// f is the image, b the first 32 bytes of a block; `high` is the byte order, k the trace, p its pointer.
// The rules in words: docs/FORMAT.md, "The trace block".
#![tactic(auto)]

ghost use Rattle.std.specs.Prelude.{◌≡◌, ◌+◌, ◌*◌, ◌≤◌, ◌<◌, length};
ghost use Rattle.refusal.specs.Table.{refusal};
ghost use Rattle.block.specs.Block.{pointer_of, pointer_row, block_in, block_answer, trace_block_of};

use refusal::{Part, Refusal, Rule};

// Where the block stands, its size B, the data's size D, the sample count S and the format code. The strings stand from
// p+32 to p+B, the data from p+B on.
#[derive(Clone, Copy)]
pub struct TraceBlock {
    pub p: usize,
    pub b: usize,
    pub d: usize,
    pub s: usize,
    pub code: u8,
}

// A refusal whose part is the trace k.
fn of_trace(rule: Rule, k: u16, place: usize) -> Refusal
    ensures { result ≡ refusal rule (Part.Trace k) place }
{
    Refusal {
        rule,
        part: Part::Trace(k),
        place,
    }
}

// The pointer to the trace k.
#[tactic(auto, unfolding(crate::specs::Block::pointer_of))]
pub fn pointer(f: &[u8], high: bool, k: u16) -> usize
    requires { 36 + 4 * k ≤ length f.now }
    ensures { (result ≡ pointer_of high f.now k) × (result < 4294967296) }
{
    word::word4(f, high, 32 + 4 * (k as usize))
}

// Row 8 of the trace k, whose pointer is p, behind what ends at prev, in an image that ends at `end`.
#[tactic(auto, unfolding(crate::specs::Block::pointer_row))]
pub fn pointer_row(end: usize, k: u16, prev: usize, p: usize) -> Result<(), Refusal>
    requires { p < 4294967296 }
    ensures { result ≡ pointer_row end k prev p }
{
    if limits::is_bad_pointer(end, prev, p) {
        return Err(of_trace(Rule::Pointer, k, 32 + 4 * (k as usize)));
    }
    Ok(())
}

// The block whose first 32 bytes are b, at p.
pub fn block_in(b: &[u8], high: bool, p: usize) -> TraceBlock
    requires { 32 ≤ length b.now }
    ensures { (result ≡ block_in high b.now p) × (result.b < 65536) × (result.d < 4294967296)
        × (result.s < 4294967296) }
{
    TraceBlock {
        p,
        b: word::word2(b, high, 2),
        d: word::word4(b, high, 4),
        s: word::word4(b, high, 8),
        code: b[12],
    }
}

// Rows 9 to 13 of the trace k, whose block begins with the 32 bytes b at p, in an image that ends at `end`; and the
// block. 4422h is 17442.
pub fn block_rows(b: &[u8], high: bool, end: usize, k: u16, p: usize) -> Result<TraceBlock, Refusal>
    requires { (p < 4294967296) × (32 ≤ length b.now) }
    ensures { result ≡ block_answer high b.now end k p }
{
    if word::word2(b, high, 0) != 17442 {
        return Err(of_trace(Rule::TraceMark, k, p));
    }
    let x = block_in(b, high, p);
    if limits::is_bad_block(end, p, x.b) {
        return Err(of_trace(Rule::BlockSize, k, p + 2));
    }
    if limits::is_bad_data(end, p + x.b, x.d) {
        return Err(of_trace(Rule::DataSize, k, p + 4));
    }
    if limits::is_bad_code(x.code) {
        return Err(of_trace(Rule::FormatCode, k, p + 12));
    }
    if limits::is_bad_samples(x.code, x.s as u32, x.d) {
        return Err(of_trace(Rule::SampleCount, k, p + 8));
    }
    Ok(x)
}

// The block of a trace of which rows 8 to 13 are known to be kept.
pub fn trace_block(f: &[u8], high: bool, k: u16) -> TraceBlock
    requires { (36 + 4 * k ≤ length f.now) × (pointer_of high f.now k + 32 ≤ length f.now) }
    ensures { result ≡ trace_block_of high f.now k }
{
    let p = pointer(f, high, k);
    block_in(&f[p..p + 32], high, p)
}
