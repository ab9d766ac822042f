// The channel number of a sheet (document 02, §7): row 35 of an addition. SheetChannel has the definition, Told a law for
// each answer, Meant that the line is the string that the sheet means. Stands on `channel_line`, `channel`.
// The rules in words: docs/FORMAT.md, "Channel numbers".
#![tactic(auto)]

ghost use Rattle.std.specs.Prelude.{◌≡◌};
ghost use Rattle.sheet_channel.specs.SheetChannel.{bad_sheet};

// Row 35: whether a sheet breaks the rule. `free` tells whether it is the first to be added, `with` whether the file's
// traces have the string.
pub fn is_bad(sheet: &[u8], free: bool, with: bool) -> bool
    ensures { result ≡ bad_sheet free with sheet.now }
{
    let l = channel_line::find(sheet);
    if l.is_empty() {
        return !free & with;
    }
    channel::is_bad(free | with, true, channel_line::value_of(l))
}
