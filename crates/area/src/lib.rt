// A sheet written as an area of strings (document 01, "What we write"): strings in the sheet's order, NOTE's lines
// joined, the end mark, zeros. Writing has what each store leaves, Spelling and Meaning that the area spells exactly
// the sheet's list. Stands on `sheet_texts`, `sheet_string`, `sheet`, `strings`, `text`, `store`, `store_bytes`, `word`.
// part is the lent memory, to the next free place in it; t, u and `high` are the file's terminators and byte order.
// The rules in words: docs/FORMAT.md, "What we write".
#![tactic(auto)]

ghost use Rattle.std.specs.Prelude.{◌≡◌, length};
ghost use Rattle.word.specs.Put.{put};
ghost use Rattle.sheet.specs.Area.{area_of};
ghost use Rattle.sheet_texts.specs.Texts.{Writable};

// The area of a sheet that `measure` gave a size, from the start of `part`, which has room for it; what is past it is
// left.
pub fn write_area(part: &mut [u8], high: bool, t: &[u8], u: &[u8], sheet: &[u8])
    requires { Writable t.now u.now sheet.now (length part.old) }
    ensures { part.new ≡ put part.old 0 (area_of high t.now u.now
        sheet.now) }
{
    let to = sheet_texts::write_strings(part, high, t, u, sheet);
    let a = to + 2;
    let e = word::round_up(a);
    store::put2(part, high, to, 0);
    store_bytes::zeros(part, a, e);
}
