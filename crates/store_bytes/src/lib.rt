// Bytes stored in a lent slice, from a place on: those of another slice, zeros. The definitions are those of `word`: Put
// and Wrote. Stands on `word`.
#![tactic(auto)]

ghost use Rattle.std.specs.Prelude.{◌≡◌, ◌+◌, ◌-◌, ◌≤◌, length, replicate};
ghost use Rattle.word.specs.Put.{put};
ghost use Rattle.word.specs.Wrote.{Room, Wrote};

// The bytes of `src`, stored from a place on. A loop, as `copy_from_slice` is a call of C's `memcpy`.
pub fn copy(buf: &mut [u8], at: usize, src: &[u8])
    requires { at + length src.now ≤ length buf.old }
    ensures { buf.new ≡ put buf.old at src.now }
{
    for (i, b) in src.iter().enumerate() {
        buf[at + i] = *b;
    }
}

// The bytes of a piece, stored from a place on; the next piece begins at the answer.
pub fn put_bytes(out: &mut [u8], at: usize, s: &[u8]) -> usize
    requires { Room out.old at s.now }
    ensures { Wrote out.old at s.now result out.new }
{
    copy(out, at, s);
    at + s.len()
}

// Zeros from place a up to place e: none where e is not past a.
pub fn zeros(buf: &mut [u8], a: usize, e: usize)
    requires { e ≤ length buf.old }
    ensures { buf.new ≡ put buf.old a (replicate (e - a) 0) }
{
    if a < e {
        buf[a..e].fill(0);
    }
}
