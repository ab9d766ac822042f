// One trace, quickly (document 02, §5): questions that do not check the whole file. They read the file block's first 32
// bytes, the trace's pointer, the first 32 bytes of its block, and its strings as far as the question goes; their time
// does not grow with the number of traces. They may answer on a file that the check refuses; on every file that the
// check accepts they answer as the full questions (`shortcut`). Quick has the definitions of all of them; here are the
// walk along the strings, and the keyword's question. Stands on `one_trace`, `until`, `values`.
// The rules in words: docs/FORMAT.md, "One trace, quickly".
#![tactic(auto)]

ghost use Rattle.std.specs.Prelude.{◌≡◌, true, ◌≤◌, length};
ghost use Rattle.word.specs.Part.{part, PartOf};
ghost use Rattle.terminators.specs.Terminators.{good_terminator};
ghost use Rattle.until.specs.Until.{look_of};
ghost use Rattle.quick.specs.Quick.{walk_between, quick_walk, told_by, quick_find, quick_keyword, quick_value};
ghost use Rattle.quick.specs.Quick.{quick_span};

use refusal::{Part, Refusal};
use strings::Place;
use until::{Ask, Walked};

// The walk along the strings of the trace k of an image, which stand from a to e.
pub fn between(
    f: &[u8],
    a: usize,
    e: usize,
    k: u16,
    ask: Ask,
    key: &[u8],
) -> Result<Walked, Refusal>
    requires { (a ≤ e) × (e ≤ length f.now) × (32 ≤ length f.now) × (good_terminator f.now 8 ≡ true)
        × (good_terminator f.now 11 ≡ true) }
    ensures { result ≡ walk_between (look_of ask key.now) f.now k a e }
{
    string_walk::walk(
        f,
        a,
        e,
        head_words::is_high(f),
        terminators::string_end(f),
        terminators::line_end(f),
        Part::Trace(k),
        ask,
        key,
    )
}

// The rows before the strings, then the walk. -1, the file, is no trace.
pub fn walk(buffer: &[u8], n: usize, trace: i32, ask: Ask, key: &[u8]) -> Result<Walked, Refusal>
    ensures { result ≡ quick_walk (look_of ask key.now) buffer.now n trace }
{
    let x = one_trace::block(buffer, n, trace)?;
    let k = (trace as u32) as u16;
    between(&buffer[..n], x.p + 32, x.p + x.b, k, ask, key)
}

// Where a walk ended, as an answer.
pub fn told(w: Result<Walked, Refusal>) -> Result<Option<Place>, Refusal>
    ensures { result ≡ told_by w }
{
    match w? {
        Walked::At(p) => Ok(Some(p)),
        Walked::Over(_) => Ok(None),
    }
}

// The string of a trace with a keyword. Any bytes may be asked for.
pub fn find(buffer: &[u8], n: usize, trace: i32, key: &[u8]) -> Result<Option<Place>, Refusal>
    ensures { result ≡ quick_find buffer.now n trace key.now }
{
    told(walk(buffer, n, trace, Ask::Keyword, key))
}

// Whether the keyword is there: one of the two calls.
pub fn keyword(buffer: &[u8], n: usize, trace: i32, key: &[u8]) -> Result<bool, Refusal>
    ensures { result ≡ quick_keyword buffer.now n trace key.now }
{
    Ok(find(buffer, n, trace, key)?.is_some())
}

// Its value, as the caller's own bytes; for a no or a refusal the empty part at the start: the other one.
pub fn value<'a>(buffer: &'a [u8], n: usize, trace: i32, key: &[u8]) -> &'a [u8]
    ensures result_value { result.now ≡ quick_value buffer.now n trace key.now }
    ensures own { PartOf buffer.entry (quick_span buffer.now n trace key.now) result }
{
    value_part::value_at(buffer, find(buffer, n, trace, key))
}
