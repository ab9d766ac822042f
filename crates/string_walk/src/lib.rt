// The strings of an area in order, as far as a question goes (document 02, §5): until a keyword is found or passed, up
// to the i-th, or all of them. Each string that is come to is read whole and judged by rows 14 to 17, that which ends
// the walk too; what stands behind it is not looked at. The definitions are until/Until; until/Turns has a law for each
// turn of the loop. Stands on `until`, `one_string`. An area is the bytes of a file from place a to place e; t is the
// string terminator, u the line terminator, `high` the byte order.
// The rules in words: docs/FORMAT.md, "One trace, quickly".
#![tactic(auto)]

ghost use Rattle.std.specs.Prelude.{◌≡◌, ◌≤◌, ◌<◌, length};
ghost use Rattle.word.specs.Part.{part};
ghost use Rattle.until.specs.Until.{look_of, walk_of};

use refusal::{Part, Refusal, Rule};
use until::{Ask, Turn, Walked};

// The walk along the area from a to e of f, or the refusal of a string that it came to. The keyword before is the file's own bytes from k to g. Any bytes may be
// asked for.
pub fn walk(
    f: &[u8],
    a: usize,
    e: usize,
    high: bool,
    t: &[u8],
    u: &[u8],
    whose: Part,
    ask: Ask,
    key: &[u8],
) -> Result<Walked, Refusal>
    requires { (a ≤ e) × (e ≤ length f.now) × (0 < length u.now) }
    ensures { result ≡ walk_of (look_of ask key.now) high t.now u.now whose
        (part a e f.now) a }
{
    if e <= a {
        return Ok(Walked::Over(0));
    }
    let mut at = a;
    let mut k = a;
    let mut g = a;
    let mut j: usize = 0;
    while at < e {
        let step = one_string::step(&f[at..e], high, t, u, whose, &f[k..g], at)?;
        let Some((o, n)) = step else {
            return Ok(Walked::Over(j));
        };
        k = at + 2;
        g = k + n;
        match until::look(ask, key, j, &f[k..g]) {
            Turn::Here => {
                return Ok(Walked::At(until::place(f, e, t, at, g, o)));
            }
            Turn::Gone => {
                return Ok(Walked::Over(j));
            }
            Turn::On => {
                at += o;
                j += 1;
            }
        }
    }
    Err(Refusal {
        rule: Rule::StringOffset,
        part: whose,
        place: at,
    })
}
