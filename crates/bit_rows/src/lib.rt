// The samples of a trace whose block is known, as bits and classes (document 01, "Samples", rows 32, 33). The definitions
// are those of reader/Questions; sample_rows/Ended has a law for each answer. Who asks has shown that the block lies in
// the image: the check (`samples`), or the trace's own rows (`quick_samples`). Stands on `sample_rows`, `patterns`.
// The rules in words: docs/FORMAT.md, "Samples".
#![tactic(auto)]

ghost use Rattle.std.specs.Prelude.{◌≡◌, ◌≤◌, length};
ghost use Rattle.reader.specs.Questions.{of_bits, bits_verdict, patterns_in};
ghost use Rattle.reader.specs.Questions.{classes_in, kept};
ghost use Rattle.reader.specs.Leaves.{Fits};

use block::TraceBlock;
use refusal::{Refusal, Rule};

// Codes 4 and 5.
fn is_bits(code: u8) -> bool
    ensures { result ≡ of_bits code }
{
    match code {
        4 => true,
        5 => true,
        _ => false,
    }
}

// The patterns of the trace whose block is t, and their classes.
pub fn bits(f: &[u8], t: TraceBlock, row: &mut [u64], classes: &mut [u8]) -> Result<(), Refusal>
    requires { (2 ≤ length f.now) × Fits (length f.now) t }
    ensures answer { result ≡ bits_verdict t (length row.old) (length classes.old) }
    ensures row { row.new ≡ kept (bits_verdict t (length row.old)
        (length classes.old)) (patterns_in f.now t) row.old }
    ensures classes { classes.new
        ≡ kept (bits_verdict t (length row.old) (length classes.old))
        (classes_in f.now t) classes.old }
{
    let code = t.code;
    let count = t.s;
    if !is_bits(code) {
        return sample_rows::refusing(Rule::CodeKind);
    }
    if row.len() != count {
        return sample_rows::refusing(Rule::RowLength);
    }
    let unequal = classes.len() != count;
    if unequal {
        return sample_rows::refusing(Rule::RowLength);
    }
    let p = t.p;
    let b = t.b;
    let d = t.d;
    patterns::read_bits(
        code,
        &f[p + b..p + b + d],
        head_words::is_high(f),
        row,
        classes,
    );
    Ok(())
}
