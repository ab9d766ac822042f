// What a value may hold (document 01, "Strings"): value characters, and in a NOTE also whole line terminators. Note has
// the definitions, and the lines of a NOTE. u is the file's line terminator. Stands on `note_line`, `note_bytes`,
// `text`, `chars`.
// The rules in words: docs/FORMAT.md, "Strings".
#![tactic(auto)]

ghost use Rattle.std.specs.Prelude.{◌≡◌, ◌<◌, length};
ghost use Rattle.text.specs.Manner.{named};
ghost use Rattle.note.specs.Note.{lines, value_ok};

use chars::Kind;
use text::Manner;

// `all_lines` for every terminator. One is passed over whole. A file's terminator starts with no value character, so
// one is asked for only where a character is none.
pub fn walk_lines(u: &[u8], s: &[u8]) -> bool
    requires { 0 < length u.now }
    ensures { result ≡ lines u.now 0 s.now }
{
    let apart = !chars::is(Kind::Value, u[0]);
    let mut rest = s;
    while let Some((b, behind)) = rest.split_first() {
        if apart & chars::is(Kind::Value, *b) {
            rest = behind;
            continue;
        }
        if note_line::is_start(u, rest) {
            rest = &rest[u.len()..];
            continue;
        }
        if !chars::is(Kind::Value, *b) {
            return false;
        }
        rest = behind;
    }
    true
}

// Whether a NOTE's value has only value characters and whole line terminators, matched from the left. A terminator of
// one byte needs no walk; nor does one of two bytes, where they differ and the first is no value character (a file's
// never is). With two bytes the loop is faster than the walk from 32 bytes on.
pub fn all_lines(u: &[u8], s: &[u8]) -> bool
    requires { 0 < length u.now }
    ensures { result ≡ lines u.now 0 s.now }
{
    if u.len() == 1 {
        return note_bytes::all_value_or(u[0], s);
    }
    if (u.len() == 2) & (32 <= s.len()) {
        if chars::is(Kind::Value, u[0]) | (u[0] == u[1]) {
            return walk_lines(u, s);
        }
        return note_bytes::all_value_pairs(u[0], u[1], s);
    }
    walk_lines(u, s)
}

// Whether v may be the value of the keyword k.
pub fn value_ok(u: &[u8], k: &[u8], v: &[u8], how: Manner) -> bool
    requires { 0 < length u.now }
    ensures { result ≡ value_ok u.now (named how k.now) v.now }
{
    if text::is_named_note(k, how) {
        return all_lines(u, v);
    }
    chars::all_value(v)
}
