// The strings of one trace, quickly (document 02, §5): how many there are, and the i-th. Each string that is come to is
// judged; for the i-th none behind it is looked at. The definitions are quick/Quick. Stands on `quick`, `until`.
// The rules in words: docs/FORMAT.md, "One trace, quickly".
#![tactic(auto)]

ghost use Rattle.std.specs.Prelude.{◌≡◌};
ghost use Rattle.quick.specs.Quick.{counted_by, quick_nth, quick_count};

use refusal::Refusal;
use strings::Place;
use until::{Ask, Walked};

// How many were passed, as an answer.
fn counted(w: Result<Walked, Refusal>) -> Result<usize, Refusal>
    ensures { result ≡ counted_by w }
{
    match w? {
        Walked::Over(j) => Ok(j),
        Walked::At(_) => Ok(0), // where all are counted, no walk ends so
    }
}

// How many strings a trace has.
pub fn count(buffer: &[u8], n: usize, trace: i32) -> Result<usize, Refusal>
    ensures { result ≡ quick_count buffer.now n trace }
{
    counted(quick::walk(buffer, n, trace, Ask::All, &buffer[..0]))
}

// Its i-th string, counted from 0; past the last there is none.
pub fn string(buffer: &[u8], n: usize, trace: i32, i: usize) -> Result<Option<Place>, Refusal>
    ensures { result ≡ quick_nth buffer.now n trace i }
{
    quick::told(quick::walk(buffer, n, trace, Ask::Index(i), &buffer[..0]))
}
