// One trace by itself (document 02, §5): its block, without a look at another trace or at the file's strings. The bytes
// read are the file block's first 32, the trace's pointer and the first 32 of its block, and the rows are those of
// document 01 for them: 1 to 7, 18, then 8 to 13, where 8 asks no more than that the pointer is not below the pointer
// room's end. Alone has the definitions, AloneLaws a law for each answer. Stands on `reader`, `image`, `head`, `block`.
// The rules in words: docs/FORMAT.md, "One trace, quickly".
#![tactic(auto)]

ghost use Rattle.std.specs.Prelude.{◌≡◌, ◌+◌, ◌*◌, ◌≤◌, ◌<◌, length};
ghost use Rattle.one_trace.specs.Alone.{own_of, named_of, block_alone};

use block::TraceBlock;
use head_limits::Purpose;
use head_words::FileBlock;
use refusal::{Part, Refusal, Rule};

// An answer, handed on arm by arm: a copy of the whole would be one of single bytes.
fn told(a: Result<TraceBlock, Refusal>) -> Result<TraceBlock, Refusal>
    ensures { result ≡ a }
{
    match a {
        Err(r) => Err(r),
        Ok(x) => Ok(x),
    }
}

// Rows 8 to 13 of the trace k of an image whose pointer room has m bytes; and its block.
fn own(f: &[u8], high: bool, m: usize, k: u16) -> Result<TraceBlock, Refusal>
    requires { (36 + 4 * k ≤ length f.now) × (32 + m ≤ length f.now) }
    ensures { result ≡ own_of high f.now m k }
{
    let p = block::pointer(f, high, k);
    block::pointer_row(f.len(), k, 32 + m, p)?;
    let e = p + 32;
    told(block::block_rows(&f[p..e], high, f.len(), k, p))
}

// Row 18, then those of the trace that is asked for. x is the file block.
fn named(f: &[u8], x: FileBlock, trace: i32) -> Result<TraceBlock, Refusal>
    requires { (4 * x.n ≤ x.m) × (32 + x.m ≤ length f.now) × (x.n < 65536) }
    ensures { result ≡ named_of f.now x trace }
{
    match part_number::named(trace, x.n as u16) {
        Some(Part::Trace(k)) => own(f, x.high, x.m, k),
        Some(Part::File) => Err(reader::no_trace()),
        None => Err(reader::no_trace()),
    }
}

// The block of a trace; -1, the file, is none.
pub fn block(buffer: &[u8], n: usize, trace: i32) -> Result<TraceBlock, Refusal>
    ensures { result ≡ block_alone buffer.now n trace }
{
    if file_length::is_bad_length(buffer.len(), n) {
        return Err(refusal::of_file(Rule::Length, 0));
    }
    let f = &buffer[..n];
    let x = head::head(&f[..32], f.len(), Purpose::Read)?;
    named(f, x, trace)
}
