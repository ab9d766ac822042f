// All strings of an area in one call: the places of its keywords and values, into a lent row of four numbers a string
// (document 01, "Strings"; row 32 where the row has another length). So a listing takes time by the bytes of the strings,
// not by their square. The definitions are reader/Questions, Rows has a law for each answer. Stands on `places`.
// The rules in words: docs/FORMAT.md, "Strings".
#![tactic(auto)]

ghost use Rattle.std.specs.Prelude.{◌≡◌, true, ◌≤◌, length};
ghost use Rattle.terminators.specs.Terminators.{good_terminator};
ghost use Rattle.head.specs.Head.{refused};
ghost use Rattle.places.specs.Numbers.{numbers_of};
ghost use Rattle.reader.specs.Questions.{places_in, kept};
ghost use Rattle.string_rows.specs.Rows.{row_verdict};

use refusal::{Refusal, Rule};
use text::Manner;

// Row 32: part -1, place 0.
fn row_length() -> Result<(), Refusal>
    ensures { result ≡ refused Rule.RowLength 0 }
{
    Err(refusal::of_file(Rule::RowLength, 0))
}

// The strings of the area from a to e of an image, c of them, into a row of four numbers each.
pub fn fill(
    f: &[u8],
    a: usize,
    e: usize,
    c: usize,
    how: Manner,
    row: &mut [usize],
) -> Result<(), Refusal>
    requires { (a ≤ e) × (e ≤ length f.now) × (32 ≤ length f.now) × (good_terminator f.now 8 ≡ true)
        × (c ≡ length (places_in how f.now a e)) }
    ensures answer { result ≡ row_verdict c (length row.old) }
    ensures row { row.new ≡ kept (row_verdict c (length row.old))
        (numbers_of (places_in how f.now a e)) row.old }
{
    let size = row.len();
    let fours = size / 4;
    let unequal = fours != c;
    if unequal {
        return row_length();
    }
    if size != 4 * fours {
        return row_length();
    }
    places::fill(
        f,
        a,
        e,
        head_words::is_high(f),
        terminators::string_end(f),
        how,
        row,
    );
    Ok(())
}
