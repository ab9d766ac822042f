// The line CHANNEL_NUMBER of a sheet (document 02, §7). ChannelLine has the definitions, Finding the walk to the line.
// Stands on `sheet`, `sheet_line`, `key_chars`, and on `channel` for the keyword.
// The rules in words: docs/FORMAT.md, "Channel numbers".
#![tactic(auto)]

ghost use Rattle.std.specs.Prelude.{◌≡◌, length, ltb};
ghost use Rattle.chars.specs.Runs.{same};
ghost use Rattle.sheet_line.specs.SheetLine.{line_key, line_value};
ghost use Rattle.sheet.specs.Lines.{sheet_lines};
ghost use Rattle.channel.specs.Channel.{channel_number};
ghost use Rattle.channel_line.specs.ChannelLine.{has_line, value_of_line};

use text::Manner;

// Whether a line without its end has the keyword CHANNEL_NUMBER.
fn is_channel(l: &[u8]) -> bool
    ensures { result ≡ same (line_key l.now) channel_number }
{
    let n = key_chars::key_run(l, Manner::Strict);
    chars::is_same(&l[..n], b"CHANNEL_NUMBER")
}

// The value of a line, behind its keyword and the byte that follows it.
pub fn value_of(l: &[u8]) -> &[u8]
    ensures { result.now ≡ line_value l.now }
{
    front_bytes::behind(l, key_chars::key_run(l, Manner::Strict) + 1)
}

// The first line CHANNEL_NUMBER of a sheet, without its end, or no byte where there is none. Rows 25 and 26 are not
// asked here: any bytes have lines, the last of them ended or not.
pub fn find(sheet: &[u8]) -> &[u8]
    ensures has { ltb 0 (length result.now) ≡ has_line (sheet_lines sheet.now) channel_number }
    ensures value { line_value result.now ≡ value_of_line (sheet_lines sheet.now) channel_number }
{
    let mut at: usize = 0;
    while at < sheet.len() {
        let e = at + sheet_line::line_len(&sheet[at..]);
        if is_channel(&sheet[at..e]) {
            return &sheet[at..e];
        }
        at = e + 1;
    }
    &sheet[..0]
}
