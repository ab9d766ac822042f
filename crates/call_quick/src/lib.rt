// What `seg2` exports on one trace, quickly, under Rattle's own name: its block, how many strings it has, the i-th,
// whether a keyword is there, its value. Each answer crosses as `face` and `face_values` hand it over. Stands on `quick`,
// `quick_strings`, `one_trace`.
// The rules in words: docs/FORMAT.md, "One trace, quickly".
#![tactic(auto)]

ghost use Rattle.std.specs.Prelude.{◌≡◌};
ghost use Rattle.one_trace.specs.Alone.{block_alone};
ghost use Rattle.quick.specs.Quick.{quick_count, quick_nth, quick_find, quick_keyword};
ghost use Rattle.face.specs.Face.{as_trace, as_count};
ghost use Rattle.face_values.specs.FaceValues.{as_string, as_keyword, as_value};

use face::{Seg2Count, Seg2Trace};
use face_values::{Seg2Keyword, Seg2String, Seg2Value};

// A trace's block.
pub fn trace_block(buffer: &[u8], n: usize, trace: i32) -> Seg2Trace
    ensures { result ≡ as_trace (block_alone buffer.now n trace) }
{
    face::trace_told(one_trace::block(buffer, n, trace))
}

// How many strings it has.
pub fn string_count(buffer: &[u8], n: usize, trace: i32) -> Seg2Count
    ensures { result ≡ as_count (quick_count buffer.now n trace) }
{
    face::count_told(quick_strings::count(buffer, n, trace))
}

// The string with an index, counted from 0.
pub fn string(buffer: &[u8], n: usize, trace: i32, index: usize) -> Seg2String
    ensures { result ≡ as_string (quick_nth buffer.now n trace index) }
{
    face_strings::string_told(quick_strings::string(buffer, n, trace, index))
}

// Whether a trace has a keyword: one of the two calls.
pub fn keyword(buffer: &[u8], n: usize, trace: i32, key: &[u8]) -> Seg2Keyword
    ensures { result ≡ as_keyword (quick_keyword buffer.now n trace key.now) }
{
    face_strings::keyword_told(quick::keyword(buffer, n, trace, key))
}

// Its value: the other one.
pub fn value(buffer: &[u8], n: usize, trace: i32, key: &[u8]) -> Seg2Value
    ensures { result ≡ as_value (quick_find buffer.now n trace key.now) }
{
    face_strings::value_told(quick::find(buffer, n, trace, key))
}
