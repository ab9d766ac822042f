// All strings of a part of a file in one row (document 01, "Strings"; document 02, §5). The definitions are
// reader/Questions. The whole file is checked first. Stands on `string_rows`, `reader`, `lookup`.
// The rules in words: docs/FORMAT.md, "Strings".
#![tactic(auto)]

ghost use Rattle.std.specs.Prelude.{◌≡◌, length};
ghost use Rattle.reader.specs.Questions.{strings_answer, strings_left};

use refusal::Refusal;
use text::Manner;

// All strings of a part.
pub fn strings(
    buffer: &[u8],
    n: usize,
    part: i32,
    row: &mut [usize],
    how: Manner,
) -> Result<(), Refusal>
    ensures answer { result ≡ strings_answer how buffer.now n part (length row.old) }
    ensures row { row.new ≡ strings_left how buffer.now n part row.old }
{
    let (a, e) = reader::open_area(buffer, n, part, how)?;
    let f = &buffer[..n];
    let high = head_words::is_high(f);
    let t = terminators::string_end(f);
    let c = lookup::count(f, a, e, high, t, how);
    string_rows::fill(f, a, e, c, how, row)
}
