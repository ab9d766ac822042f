// The channel number of one trace (document 02, row 34). Trace has the rows of a trace in their order (document 01, rows
// 9 to 17, and 34), TraceLaws what each part has shown; `trace_check` goes through them, each string read once. Stands on
// `block`, `seek`, `channel`. f is the image; t and u are its terminators, `how` is the manner of reading.
// The rules in words: docs/FORMAT.md, "Refusal numbers, in order of checking".
#![tactic(auto)]

ghost use Rattle.std.specs.Prelude.{◌≡◌, ◌+◌, ◌≤◌, length, Ok, Err};
ghost use Rattle.std.specs.Option.{is_some};
ghost use Rattle.refusal.specs.Verdicts.{asked};
ghost use Rattle.seek.specs.Sought.{SpanIn, span_bytes};
ghost use Rattle.trace.specs.Trace.{channel_row, chosen_by};

use refusal::{Part, Refusal, Rule};
use text::Manner;

// Whether the file's traces have a channel number: as trace 0 has it.
fn chosen(with: bool, k: u16, has: bool) -> bool
    ensures { result ≡ chosen_by with k has }
{
    if k == 0 {
        return has;
    }
    with
}

// Row 34 of the trace k at p, which ends at `end`: `value` is where the value of its channel number stands, if it has
// one. Answers where the trace ends, and whether the file's traces have a channel number.
pub fn numbered(
    f: &[u8],
    with: bool,
    k: u16,
    p: usize,
    value: Option<(usize, usize)>,
    end: usize,
    how: Manner,
) -> Result<(usize, bool), Refusal>
    requires { (p + 32 ≤ length f.now) × SpanIn f.now value }
    ensures { result ≡ asked Err (channel_row how (chosen_by with k (is_some value)) k p (is_some value)
        (span_bytes f.now value)) (Ok (end, chosen_by with k (is_some value))) }
{
    let has = value.is_some();
    let all = chosen(with, k, has);
    let (from, to) = value.unwrap_or((0, 0));
    let bad = text::asks_channels(how) & channel::is_bad(all, has, &f[from..to]);
    if bad {
        return Err(Refusal {
            rule: Rule::ChannelNumber,
            part: Part::Trace(k),
            place: p + 32,
        });
    }
    Ok((end, all))
}
