// The five sample codes written, on a data block alone (document 01, "Samples"). Write has the definitions; Back and
// Cut say what is read back: the samples, or code 3's nearest towards 0. Stands on `row20`, `group20`, `float20`,
// `fit`, `decode`, `sample`, `store`, `word`.
// The rules in words: docs/FORMAT.md, "Samples".
#![tactic(auto)]

ghost use Rattle.std.specs.Prelude.{◌≡◌, None, ◌+◌, ◌-◌, ◌%◌, ◌≤◌, length, replicate};
ghost use Rattle.word.specs.Put.{put};
ghost use Rattle.word.specs.Round.{round4};
ghost use Rattle.word.specs.Word.{bytes_of};
ghost use Rattle.sample.specs.Needed.{room};
ghost use Rattle.fit.specs.Unfit.{unfit_integers};
ghost use Rattle.encode.specs.Write.{integers_data, bits_data};

// The eight bytes of a number, stored at a place.
fn put_word8(part: &mut [u8], high: bool, at: usize, n: u64)
    requires { at + 8 ≤ length part.old }
    ensures { part.new ≡ put part.old at (bytes_of 8 high n) }
{
    store_wide::put8(part, false, at, sample::turned8(high, n));
}

// Zeros from a place up to a multiple of 4.
fn fill_up(part: &mut [u8], end: usize)
    requires { round4 end ≤ length part.old }
    ensures { part.new ≡ put part.old end (replicate (round4 end - end) 0) }
{
    store_bytes::zeros(part, end, word::round_up(end));
}

// The data block of code 1: the samples, and zeros up to a multiple of 4.
pub fn write1(row: &[i32], high: bool, part: &mut [u8])
    requires { room 1 (length row.now) ≤ length part.old }
    ensures { part.new ≡ put part.old 0 (integers_data 1 high row.now) }
{
    for (i, sample) in row.iter().enumerate() {
        store::put2(part, high, 2 * i, (sample.cast_unsigned() % 65536) as u16);
    }
    fill_up(part, 2 * row.len());
}

// The same of code 2.
pub fn write2(row: &[i32], high: bool, part: &mut [u8])
    requires { room 2 (length row.now) ≤ length part.old }
    ensures { part.new ≡ put part.old 0 (integers_data 2 high row.now) }
{
    for (i, sample) in row.iter().enumerate() {
        group20::put_word4(part, high, 4 * i, sample.cast_unsigned());
    }
    fill_up(part, 4 * row.len());
}

// The same of code 4.
pub fn write4(row: &[u64], high: bool, part: &mut [u8])
    requires { room 4 (length row.now) ≤ length part.old }
    ensures { part.new ≡ put part.old 0 (bits_data 4 high row.now) }
{
    for (i, pattern) in row.iter().enumerate() {
        group20::put_word4(part, high, 4 * i, (*pattern % 4294967296) as u32);
    }
    fill_up(part, 4 * row.len());
}

// The same of code 5.
pub fn write5(row: &[u64], high: bool, part: &mut [u8])
    requires { room 5 (length row.now) ≤ length part.old }
    ensures { part.new ≡ put part.old 0 (bits_data 5 high row.now) }
{
    for (i, pattern) in row.iter().enumerate() {
        put_word8(part, high, 8 * i, *pattern);
    }
    fill_up(part, 8 * row.len());
}

// The data block of code 3: the groups, and zeros up to a multiple of 4.
pub fn write3(row: &[i32], high: bool, part: &mut [u8])
    requires { (room 3 (length row.now) ≤ length part.old) × (length row.now % 4 ≡ 0)
        × (unfit_integers 3 row.now ≡ None) }
    ensures { part.new ≡ put part.old 0 (integers_data 3 high row.now) }
{
    row20::write_groups(row, high, part);
    fill_up(part, 10 * (row.len() / 4));
}
