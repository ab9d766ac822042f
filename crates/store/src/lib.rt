// A whole number of 2 bytes in either order, stored in a lent slice at a place. `high` says that the high byte comes
// first. The definitions are those of `word`: Put and Word. Stands on `word`.
// The rules in words: docs/FORMAT.md, "The file block".
#![tactic(auto)]

ghost use Rattle.std.specs.Prelude.{◌≡◌, ◌+◌, ◌≤◌, length};
ghost use Rattle.word.specs.Put.{put};
ghost use Rattle.word.specs.Word.{bytes_of};

// The two bytes of a number, stored at a place.
pub fn put2(buf: &mut [u8], high: bool, at: usize, n: u16)
    requires { at + 2 ≤ length buf.old }
    ensures { buf.new ≡ put buf.old at (bytes_of 2 high n) }
{
    let lo = (n % 256) as u8;
    let hi = (n / 256 % 256) as u8;
    let at1 = at + 1;
    if high {
        buf[at] = hi;
        buf[at1] = lo;
    } else {
        buf[at] = lo;
        buf[at1] = hi;
    }
}
