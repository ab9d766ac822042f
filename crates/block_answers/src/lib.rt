// The questions for a block: that of the file, and that of a trace (document 01, "File block", "Trace block", row 18). The definitions are
// reader/Questions. Every question checks the whole file first. Stands on `reader`, `image`, `block`.
// The rules in words: docs/FORMAT.md, "The file block", "The trace block".
#![tactic(auto)]

ghost use Rattle.std.specs.Prelude.{◌≡◌};
ghost use Rattle.reader.specs.Questions.{file_answer, trace_answer};

use block::TraceBlock;
use head_limits::Purpose;
use head_words::FileBlock;
use refusal::{Part, Refusal};
use text::Manner;

// The file block.
pub fn file_block(buffer: &[u8], n: usize, how: Manner) -> Result<FileBlock, Refusal>
    ensures { result ≡ file_answer how buffer.now n }
{
    image::check(buffer, n, Purpose::Read, how)?; // a file has a trace
    Ok(head_words::file_block(&buffer[..n]))
}

// The trace block of a trace; -1, the file, is none.
pub fn trace_block(buffer: &[u8], n: usize, trace: i32, how: Manner) -> Result<TraceBlock, Refusal>
    ensures { result ≡ trace_answer how buffer.now n trace }
{
    image::check(buffer, n, Purpose::Read, how)?;
    let f = &buffer[..n];
    match reader::whose_in(f, trace) {
        Some(Part::Trace(k)) => Ok(block::trace_block(f, head_words::is_high(f), k)),
        Some(Part::File) => Err(reader::no_trace()),
        None => Err(reader::no_trace()),
    }
}
