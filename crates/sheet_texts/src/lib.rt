// The strings of a sheet, stored one behind the other in the sheet's order (document 01, "What we write"). Texts has what
// each store leaves. Stands on `sheet_string`, `sheet`, `sheet_line`, `strings`, `text`, `word`. part is the lent memory;
// t, u and `high` are the file's terminators and byte order.
// The rules in words: docs/FORMAT.md, "What we write".
#![tactic(auto)]

ghost use Rattle.std.specs.Prelude.{◌≡◌, length};
ghost use Rattle.word.specs.Put.{put};
ghost use Rattle.sheet.specs.Area.{sheet_strings};
ghost use Rattle.sheet_texts.specs.Texts.{texts_of, Writable};

use text::Manner;

// The strings of a sheet, one behind the other. Answers the place behind them.
pub fn write_strings(part: &mut [u8], high: bool, t: &[u8], u: &[u8], sheet: &[u8]) -> usize
    requires { Writable t.now u.now sheet.now (length part.old) }
    ensures { (result ≡ length (texts_of high t.now (sheet_strings u.now sheet.now)))
        × (part.new ≡ put part.old 0
        (texts_of high t.now (sheet_strings u.now sheet.now))) }
{
    let mut at: usize = 0;
    let mut to: usize = 0;
    while at < sheet.len() {
        let n = sheet_line::line_len(&sheet[at..]);
        let e = at + n;
        let w = key_chars::key_run(&sheet[at..e], Manner::Strict);
        let k = at + w;
        if key_order::is_note(&sheet[at..k]) {
            return sheet_string::write_note(part, high, t, u, &sheet[at..], to);
        }
        to = sheet_string::write_line(part, high, t, &sheet[at..e], w, to);
        at = e + 1;
    }
    to
}
