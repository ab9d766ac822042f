// The value of a string that was found, as the caller's own bytes (document 01, "Strings"). The definitions are
// reader/Questions. Stands on `reader` for them, and on `word` for what a part of a buffer is.
// The rules in words: docs/FORMAT.md, "Strings".
#![tactic(auto)]

ghost use Rattle.std.specs.Prelude.{◌≡◌, length};
ghost use Rattle.word.specs.Part.{PartOf};
ghost use Rattle.reader.specs.Questions.{value_there, span_there};
ghost use Rattle.reader.specs.Leaves.{Within};

use refusal::Refusal;
use strings::Place;

// The value of a string that was found, as the caller's own bytes; else the empty part at the start.
pub fn value_at<'a>(buffer: &'a [u8], s: Result<Option<Place>, Refusal>) -> &'a [u8]
    requires { Within (length buffer.now) s }
    ensures result_value { result.now ≡ value_there buffer.now s }
    ensures own { PartOf buffer.entry (span_there s) result }
{
    match s {
        Ok(Some(p)) => {
            let from = p.value;
            let to = p.end;
            &buffer[from..to]
        }
        Ok(None) => {
            let start = 0; // for a no
            &buffer[start..start]
        }
        Err(_) => {
            let start = 0; // for a refusal
            &buffer[start..start]
        }
    }
}
