// Whole numbers of 4 and 8 bytes in either order, stored in a lent slice at a place, by halves. `high` says that the high
// byte comes first. The definitions are those of `word`: Put and Word. Stands on `store`, `word`.
// The rules in words: docs/FORMAT.md, "The trace block".
#![tactic(auto)]

ghost use Rattle.std.specs.Prelude.{◌≡◌, ◌+◌, ◌≤◌, length};
ghost use Rattle.word.specs.Put.{put};
ghost use Rattle.word.specs.Word.{bytes_of};

// The four bytes of a number, stored at a place.
pub fn put4(buf: &mut [u8], high: bool, at: usize, n: u32)
    requires { at + 4 ≤ length buf.old }
    ensures { buf.new ≡ put buf.old at (bytes_of 4 high n) }
{
    let lo = (n % 65536) as u16;
    let hi = (n / 65536) as u16;
    if high {
        store::put2(buf, high, at, hi);
        store::put2(buf, high, at + 2, lo);
    } else {
        store::put2(buf, high, at, lo);
        store::put2(buf, high, at + 2, hi);
    }
}

// The eight bytes of a number, stored at a place.
pub fn put8(buf: &mut [u8], high: bool, at: usize, n: u64)
    requires { at + 8 ≤ length buf.old }
    ensures { buf.new ≡ put buf.old at (bytes_of 8 high n) }
{
    let lo = (n % 4294967296) as u32;
    let hi = (n / 4294967296) as u32;
    if high {
        put4(buf, high, at, hi);
        put4(buf, high, at + 4, lo);
    } else {
        put4(buf, high, at, lo);
        put4(buf, high, at + 4, hi);
    }
}
