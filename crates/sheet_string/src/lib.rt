// One string of a sheet, stored (document 01, "What we write"): a line as a string of its own, or a NOTE, whose lines are
// joined. StringBytes has what each store leaves. Stands on `sheet`, `sheet_line`, `strings`, `store`, `store_bytes`,
// `word`. part is the lent memory; t, u and `high` are the file's terminators and byte order.
// The rules in words: docs/FORMAT.md, "What we write".
#![tactic(auto)]

ghost use Rattle.std.specs.Prelude.{◌≡◌, ◌++◌, ◌+◌, ◌≤◌, ◌<◌, length};
ghost use Rattle.word.specs.Put.{put};
ghost use Rattle.strings.specs.Spelled.{size_of};
ghost use Rattle.sheet.specs.Lines.{sheet_lines};
ghost use Rattle.sheet.specs.Area.{str_of, note_of};
ghost use Rattle.sheet_string.specs.StringBytes.{string_bytes, more_of, line_at, Noted, Headed};

// A line as a string of its own, stored from place `to` on; w is its keyword's length. Answers the place behind it.
pub fn write_line(part: &mut [u8], high: bool, t: &[u8], l: &[u8], w: usize, to: usize) -> usize
    requires { (w < length l.now) × (2 + length l.now + length t.now < 65536)
        × (to + (2 + length l.now + length t.now) ≤ length part.old) }
    ensures { (result ≡ to + (2 + length l.now + length t.now))
        × (part.new ≡ put part.old to
        (string_bytes high t.now (str_of (line_at w l.now)))) }
{
    let n = 2 + l.len() + t.len();
    let a = to + 2;
    let b = a + w;
    let d = a + l.len();
    store::put2(part, high, to, n as u16);
    store_bytes::copy(part, a, &l[..w]);
    store_bytes::copy(part, b, b" ");
    store_bytes::copy(part, b + 1, &l[w + 1..]);
    store_bytes::copy(part, d, t);
    to + n
}

// A further line of a NOTE: the line terminator and the value v. Answers the place behind it.
fn write_more(part: &mut [u8], u: &[u8], v: &[u8], to: usize) -> usize
    requires { to + (length u.now + length v.now) ≤ length part.old }
    ensures { (result ≡ to + (length u.now + length v.now))
        × (part.new ≡ put part.old to (u.now ++ v.now)) }
{
    let a = to + u.len();
    store_bytes::copy(part, to, u);
    store_bytes::copy(part, a, v);
    a + v.len()
}

// The further lines of a NOTE, of which s has nothing but. Answers the place behind them.
fn write_lines(part: &mut [u8], u: &[u8], s: &[u8], to: usize) -> usize
    requires { Noted s.now × (to + length (more_of u.now (sheet_lines s.now)) ≤ length part.old) }
    ensures { (result ≡ to + length (more_of u.now (sheet_lines s.now)))
        × (part.new ≡ put part.old to (more_of u.now (sheet_lines s.now))) }
{
    let mut at: usize = 0;
    let mut end = to;
    while at < s.len() {
        let e = at + sheet_line::line_len(&s[at..]);
        end = write_more(part, u, &s[at + 5..e], end);
        at = e + 1;
    }
    end
}

// A NOTE of all the lines of s, stored from place `to` on. Its offset is stored last: the lines are gone through once,
// and the place behind them tells its size. Answers the place behind it.
pub fn write_note(part: &mut [u8], high: bool, t: &[u8], u: &[u8], s: &[u8], to: usize) -> usize
    requires { Headed s.now × (size_of t.now (note_of u.now (sheet_lines s.now)) < 65536)
        × (to + size_of t.now (note_of u.now (sheet_lines s.now)) ≤ length part.old) }
    ensures { (result ≡ to + size_of t.now (note_of u.now (sheet_lines s.now)))
        × (part.new ≡ put part.old to
        (string_bytes high t.now (note_of u.now (sheet_lines s.now)))) }
{
    let n = sheet_line::line_len(s);
    let a = to + 2;
    let b = a + 5;
    let c = a + n;
    store_bytes::copy(part, a, b"NOTE ");
    store_bytes::copy(part, b, &s[5..n]);
    let e = write_lines(part, u, &s[n + 1..], c);
    store_bytes::copy(part, e, t);
    let end = e + t.len();
    store::put2(part, high, to, (end - to) as u16);
    end
}
