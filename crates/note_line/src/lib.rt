// The first line of a NOTE's value (document 01, "Strings"): up to a whole line terminator. NoteLine has the
// definitions. u is the file's line terminator. Stands on `chars`.
// The rules in words: docs/FORMAT.md, "Strings".
#![tactic(auto)]

ghost use Rattle.std.specs.Prelude.{◌≡◌, ◌+◌, drop};
ghost use Rattle.note_line.specs.NoteLine.{starts, line_len};

// Whether s begins with u. The first byte tells it almost always, and is asked for each byte of a line: `starts_with`
// would be a call for each.
pub fn is_start(u: &[u8], s: &[u8]) -> bool
    ensures { result ≡ starts u.now s.now }
{
    if s.len() < u.len() {
        return false;
    }
    u.is_empty() || (s[0] == u[0] && chars::is_same(&s[..u.len()], u))
}

// Where the line that starts at `from` ends in a NOTE's value: at a line terminator, or at the value's end.
pub fn line_end(u: &[u8], v: &[u8], from: usize) -> usize
    ensures { result ≡ from + line_len u.now (drop from v.now) }
{
    for i in from..v.len() {
        if is_start(u, &v[i..]) {
            return i;
        }
    }
    from.max(v.len())
}
