// The lines of a part's strings in a listing, into a row of bytes that the caller lends (document 01, the end of
// "Worked values"): each line of a NOTE is one by itself. StringLines has the definitions. Stands on `lines`, `lookup`
// and what they stand on.
// The rules in words: docs/FORMAT.md, "Worked values".
#![tactic(auto)]

ghost use Rattle.std.specs.Prelude.{◌≤◌, ◌<◌, length};
ghost use Rattle.word.specs.Part as parts;
ghost use Rattle.word.specs.Wrote.{Room, Wrote};
ghost use Rattle.text.specs.declared.Manner.TheVariants.{Strict};
ghost use Rattle.note.specs.Note.{lines_of};
ghost use Rattle.strings.specs.Strings.{places_of};
ghost use Rattle.strings.specs.Spelled.{strs_in};
ghost use Rattle.string_lines.specs.StringLines.{lines_text, values_of, strings_text};

use refusal::Part;
use text::Manner;

// A NOTE: each line by itself.
fn put_lines(out: &mut [u8], at: usize, part: Part, key: &[u8], u: &[u8], v: &[u8]) -> usize
    requires { (0 < length u.now) × Room out.old at (lines_text part key.now
        (lines_of (length v.now) u.now v.now)) }
    ensures { Wrote out.old at
        (lines_text part key.now (lines_of (length v.now) u.now v.now)) result
        out.new }
{
    let mut from: usize = 0;
    let mut to = at;
    let mut e = note_line::line_end(u, v, 0);
    while e < v.len() {
        to = lines::put_line(out, to, part, key, &v[from..e]);
        from = e + u.len();
        e = note_line::line_end(u, v, from);
    }
    lines::put_line(out, to, part, key, &v[from..])
}

// A string. Only a NOTE has lines.
fn put_string(out: &mut [u8], at: usize, part: Part, u: &[u8], key: &[u8], v: &[u8]) -> usize
    requires { (0 < length u.now) × Room out.old at (lines_text part key.now
        (values_of u.now key.now v.now)) }
    ensures { Wrote out.old at
        (lines_text part key.now (values_of u.now key.now v.now)) result
        out.new }
{
    if key_order::is_note(key) {
        return put_lines(out, at, part, key, u, v);
    }
    lines::put_line(out, at, part, key, v)
}

// The strings of the area from a to e of f. The first string of what is left tells where the next begins.
pub fn put_strings(
    out: &mut [u8],
    at: usize,
    part: Part,
    f: &[u8],
    a: usize,
    e: usize,
    high: bool,
    t: &[u8],
    u: &[u8],
) -> usize
    requires { (a ≤ e) × (e ≤ length f.now) × (0 < length u.now)
        × Room out.old at (strings_text part u.now
        (strs_in f.now (places_of Strict high t.now (parts.part a e f.now) a))) }
    ensures { Wrote out.old at
        (strings_text part u.now (strs_in f.now (places_of Strict high t.now
        (parts.part a e f.now) a))) result out.new }
{
    let mut s = a;
    let mut to = at;
    while s < e {
        let Some(p) = lookup::nth(f, s, e, high, t, 0, Manner::Strict) else {
            return to;
        };
        to = put_string(out, to, part, u, &f[p.key..p.gap], &f[p.value..p.end]);
        s = p.end + t.len();
    }
    to
}
