// The samples of a trace whose block is known, as integers (document 01, "Samples", rows 32, 33). The definitions are
// those of reader/Questions; Ended has a law for each answer, those of `bit_rows` too. Who asks has shown that the block
// lies in the image: the check (`samples`), or the trace's own rows (`quick_samples`). Stands on `reader`, `decode`.
// The rules in words: docs/FORMAT.md, "Samples".
#![tactic(auto)]

ghost use Rattle.std.specs.Prelude.{◌≡◌, ◌≤◌, length};
ghost use Rattle.head.specs.Head.{refused};
ghost use Rattle.reader.specs.Questions.{of_integers, integers_verdict, samples_in};
ghost use Rattle.reader.specs.Questions.{kept};
ghost use Rattle.reader.specs.Leaves.{Fits};

use block::TraceBlock;
use refusal::{Refusal, Rule};

// Codes 1 to 3.
fn is_integers(code: u8) -> bool
    ensures { result ≡ of_integers code }
{
    match code {
        1 => true,
        2 => true,
        3 => true,
        _ => false,
    }
}

// Rows 32 and 33: part -1, place 0.
pub fn refusing(rule: Rule) -> Result<(), Refusal>
    ensures { result ≡ refused rule 0 }
{
    Err(refusal::of_file(rule, 0))
}

// Rows 33 and 32; then the data block of the trace alone, out of the middle of the image, is handed to the decoder. t is
// the trace's block.
pub fn integers(f: &[u8], t: TraceBlock, row: &mut [i32]) -> Result<(), Refusal>
    requires { (2 ≤ length f.now) × Fits (length f.now) t }
    ensures answer { result ≡ integers_verdict t (length row.old) }
    ensures row { row.new ≡ kept (integers_verdict t (length row.old))
        (samples_in f.now t) row.old }
{
    let code = t.code;
    let s = t.s;
    if !is_integers(code) {
        return refusing(Rule::CodeKind);
    }
    let unequal = row.len() != s;
    if unequal {
        return refusing(Rule::RowLength);
    }
    let p = t.p;
    let b = t.b;
    let d = t.d;
    decode::read_integers(code, &f[p + b..p + b + d], head_words::is_high(f), row);
    Ok(()) // the row holds all S samples
}
