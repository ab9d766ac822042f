// The samples of an addition (document 01, rows 28 and 29), by their kind: integers for codes 1 to 3, bit patterns for 4
// and 5. Entry has the definitions. Stands on `fit`, and on `layout` for what samples are.
// The rules in words: docs/FORMAT.md, "What we write".
#![tactic(auto)]

ghost use Rattle.std.specs.Prelude.{◌≡◌};
ghost use Rattle.decode.specs.Sample.{integers_asked, bits_asked};
ghost use Rattle.layout.specs.Layout.{integers, patterns};
ghost use Rattle.entry.specs.Entry.{on_fit, samples_verdict, code_verdict};

use refusal::{Refusal, Rule};

// Row 29: the first sample that its code cannot hold.
fn fitted(fit: Option<usize>) -> Result<(), Refusal>
    ensures { result ≡ on_fit fit }
{
    match fit {
        None => Ok(()),
        Some(i) => Err(refusal::of_file(Rule::SampleRange, i)),
    }
}

fn is_of_integers(code: u32, count: usize) -> bool
    ensures { result ≡ integers_asked code count }
{
    match code {
        1 | 2 => true,
        3 => count % 4 == 0,
        _ => false,
    }
}

fn is_of_bits(code: u32) -> bool
    ensures { result ≡ bits_asked code }
{
    matches!(code, 4 | 5)
}

// Integers: a code of 1 to 3, and under code 3 a count in fours.
pub fn integers_fit(code: u32, row: &[i32]) -> Result<(), Refusal>
    ensures { result ≡ samples_verdict code (integers row.now) }
{
    if !is_of_integers(code, row.len()) {
        return Err(refusal::of_file(Rule::EntryCode, 0));
    }
    fitted(fit::unfit_integers(code as u8, row))
}

// Bit patterns: code 4 or 5.
pub fn bits_fit(code: u32, row: &[u64]) -> Result<(), Refusal>
    ensures { result ≡ samples_verdict code (patterns row.now) }
{
    if !is_of_bits(code) {
        return Err(refusal::of_file(Rule::EntryCode, 0));
    }
    fitted(fit::unfit_bits(code as u8, row))
}

// Row 28 before the samples are there: a code of either kind, and under code 3 a count in fours.
pub fn code_fits(code: u32, count: usize) -> Result<(), Refusal>
    ensures { result ≡ code_verdict code count }
{
    let of_either = is_of_integers(code, count) || is_of_bits(code);
    if !of_either {
        return Err(refusal::of_file(Rule::EntryCode, 0));
    }
    Ok(())
}
