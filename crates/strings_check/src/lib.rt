// The check of an area of strings (document 01, rows 14 to 17) that seeks CHANNEL_NUMBER in the same pass, so that no
// string is read twice for the rule that asks for it (document 02, §7). The definitions are seek/Sought, with the laws
// of the walk. Stands on `seek`, `string_step`, and on `channel` for the keyword.
// The rules in words: docs/FORMAT.md, "Strings".
#![tactic(auto)]

ghost use Rattle.std.specs.Prelude.{◌≡◌, ◌≤◌, ◌<◌, length};
ghost use Rattle.channel.specs.Channel.{channel_number};
ghost use Rattle.seek.specs.Sought.{checked_of};

use refusal::{Part, Refusal, Rule};
use text::Manner;

// The check of the area from a to e of f and, in the same pass, where the value of its first channel number stands, if it
// has one. The keyword before is the file's own bytes from k to g.
pub fn check(
    f: &[u8],
    a: usize,
    e: usize,
    high: bool,
    t: &[u8],
    u: &[u8],
    whose: Part,
    how: Manner,
) -> Result<Option<(usize, usize)>, Refusal>
    requires { (a ≤ e) × (e ≤ length f.now) × (0 < length u.now) }
    ensures { result ≡ checked_of how high t.now u.now whose f.now a e
        channel_number }
{
    if e <= a {
        return Ok(seek::seen(f, e, t, e, e, 0));
    }
    let mut at = a;
    let mut k = a;
    let mut g = a;
    let mut hit = e;
    let mut gap = e;
    let mut size: usize = 0;
    while at < e {
        let step = string_step::step_at(&f[at..e], high, t, u, whose, &f[k..g], at, how)?;
        let Some((o, n)) = step else {
            return Ok(seek::seen(f, e, t, hit, gap, size));
        };
        k = at + 2;
        g = k + n;
        let first = (e <= hit) & seek::is_sought(&f[k..g], how);
        hit = seek::choose(first, at, hit);
        gap = seek::choose(first, g, gap);
        size = seek::choose(first, o, size);
        at += o;
    }
    let ends = text::open_end(how);
    if ends {
        return Ok(seek::seen(f, e, t, hit, gap, size));
    }
    Err(Refusal {
        rule: Rule::StringOffset,
        part: whose,
        place: at,
    })
}
