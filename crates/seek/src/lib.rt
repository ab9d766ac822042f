// What the check of an area of strings seeks in its pass: the keyword CHANNEL_NUMBER, and where its value stands
// (document 02, §7). Sought has the definitions, that of the check too, which is `strings_check`, and the laws of the
// walk, for any keyword. Stands on `strings`, `text`, and on `channel` for the keyword.
// The rules in words: docs/FORMAT.md, "Strings".
#![tactic(auto)]

ghost use Rattle.std.specs.Prelude.{◌≡◌, ◌≤◌, ◌<◌, length};
ghost use Rattle.refusal.specs.Rows.{pick};
ghost use Rattle.chars.specs.Runs.{same};
ghost use Rattle.text.specs.Manner.{named};
ghost use Rattle.channel.specs.Channel.{channel_number};
ghost use Rattle.strings.specs.Passed.{Lies};
ghost use Rattle.seek.specs.Sought.{span_of, seen_of};

use chars::Kind;
use text::Manner;

// Whether a keyword counts as the one that is sought. It is no parameter: a literal that is handed on takes stack.
pub fn is_sought(k: &[u8], how: Manner) -> bool
    ensures { result ≡ same (named how k.now) channel_number }
{
    text::is_named(k, b"CHANNEL_NUMBER", how)
}

// The first where the test holds, else the second.
pub fn choose(test: bool, a: usize, b: usize) -> usize
    ensures { result ≡ pick test a b }
{
    if test {
        return a;
    }
    b
}

// What was sought, where no row was met: the place of the value of the string of `size` bytes that was seen at `hit`, its
// keyword up to `gap`; none where none was seen, and hit is still the area's end.
pub fn seen(
    f: &[u8],
    e: usize,
    t: &[u8],
    hit: usize,
    gap: usize,
    size: usize,
) -> Option<(usize, usize)>
    requires { (e ≤ length f.now) × (hit < e → Lies (length t.now) e hit gap size) }
    ensures { result ≡ span_of (seen_of t.now f.now e hit gap size) }
{
    if e <= hit {
        return None;
    }
    let end = hit + (size - t.len());
    Some((gap + chars::run(Kind::Blank, &f[gap..end]), end))
}
