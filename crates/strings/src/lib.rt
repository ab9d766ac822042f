// The strings of an area: the frame of one string (document 01, "Strings", rows 14 and 15); `string_step` judges it
// whole, `strings_check` a whole area, `lookup` asks. Strings has the definitions of all, Spelled and Paper the second
// view: an area is accepted exactly where it spells a list of strings, and only one. Stands on `text`, `word`,
// `refusal`, and for the definitions on `note`. An area is the
// bytes of a file from place a to place e; t is the string terminator, u the line terminator, `high` the byte order,
// `how` the manner of reading (text/Manner), which is a parameter of every walk and question here.
// The rules in words: docs/FORMAT.md, "Strings".
#![tactic(auto)]

ghost use Rattle.std.specs.Prelude.{◌≡◌};
ghost use Rattle.strings.specs.Strings.{cut, frame_of};

use refusal::Rule;
use text::Manner;

// Where a string stands in the file: the keyword from key to gap, the separators from gap to value, the value from
// value to end.
#[derive(Clone, Copy)]
pub struct Place {
    pub key: usize,
    pub gap: usize,
    pub value: usize,
    pub end: usize,
}

// Whether no offset is left where one must be.
fn is_cut(l: &[u8], how: Manner) -> bool
    ensures { result ≡ cut how l.now }
{
    if text::open_end(how) {
        return l.len() == 1;
    }
    l.len() < 2
}

// Rows 14 and 15 of the string that l starts with: a string of so many bytes in all, none at the end of the list, or the
// rule that its frame breaks.
pub fn framed(l: &[u8], high: bool, t: &[u8], how: Manner) -> Result<Option<usize>, Rule>
    ensures { result ≡ frame_of how high t.now l.now }
{
    if l.len() < 2 {
        if is_cut(l, how) {
            return Err(Rule::StringOffset);
        }
        return Ok(None);
    }
    let o = word::word2(l, high, 0);
    if o == 0 {
        return Ok(None);
    }
    let n = t.len();
    if o < 3 {
        return Err(Rule::StringOffset);
    }
    if o - 3 < n {
        return Err(Rule::StringOffset);
    }
    if l.len() < o {
        return Err(Rule::StringOffset);
    }
    let end = o - n;
    if !chars::is_same(&l[end..o], t) {
        return Err(Rule::StringEnd);
    }
    Ok(Some(o))
}
