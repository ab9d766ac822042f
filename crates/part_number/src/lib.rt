// Whom a part number names among the traces of a file (document 01, "Strings", row 18). PartNumber has the definition.
// Stands on `refusal` and `word` for laws alone.
// The rules in words: docs/FORMAT.md, "Strings".
#![tactic(auto)]

ghost use Rattle.std.specs.Prelude.{◌≡◌};
ghost use Rattle.part_number.specs.PartNumber.{whose_of};

use refusal::Part;

// Whom a part number names among n traces: -1 the file, 0 to n-1 a trace.
pub fn named(part: i32, n: u16) -> Option<Part>
    ensures { result ≡ whose_of part n }
{
    if part == -1 {
        return Some(Part::File);
    }
    let Ok(k) = u16::try_from(part) else {
        return None;
    };
    (k < n).then_some(Part::Trace(k))
}
