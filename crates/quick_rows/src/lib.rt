// All strings of one trace in one row, quickly (document 02, §5). Each string is judged before the row is filled. The
// definitions are quick/Quick; Told has a law for each answer. Stands on `quick`, `one_trace`, `string_rows`.
// The rules in words: docs/FORMAT.md, "One trace, quickly".
#![tactic(auto)]

ghost use Rattle.std.specs.Prelude.{◌≡◌, length};
ghost use Rattle.quick.specs.Quick.{quick_strings, quick_strings_left};

use refusal::Refusal;
use text::Manner;
use until::{Ask, Walked};

// All its strings, into a row of four numbers each.
pub fn strings(buffer: &[u8], n: usize, trace: i32, row: &mut [usize]) -> Result<(), Refusal>
    ensures answer { result ≡ quick_strings buffer.now n trace (length row.old) }
    ensures row { row.new ≡ quick_strings_left buffer.now n trace row.old }
{
    let x = one_trace::block(buffer, n, trace)?;
    let f = &buffer[..n];
    let a = x.p + 32;
    let e = x.p + x.b;
    match quick::between(f, a, e, (trace as u32) as u16, Ask::All, &f[..0])? {
        Walked::Over(c) => string_rows::fill(f, a, e, c, Manner::Strict, row),
        Walked::At(_) => Ok(()), // where all are counted, no walk ends so
    }
}
