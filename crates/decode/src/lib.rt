// Codes 1 to 3 read, on a data block alone (document 01, "Samples"): integers. Sample has the definitions, of codes 4
// and 5 too. `high` says that the high byte comes first. Stands on `sample_bits`, `sample`, `word`.
// The rules in words: docs/FORMAT.md, "Samples".
#![tactic(auto)]

ghost use Rattle.std.specs.Prelude.{◌≡◌, true, false, ◌+◌, ◌*◌, ◌/◌, ◌%◌, ◌≤◌, ◌<◌, length};
ghost use Rattle.word.specs.Put.{put};
ghost use Rattle.word.specs.Word.{word_at};
ghost use Rattle.sample.specs.Needed.{needed};
ghost use Rattle.sample.specs.Run.{values_from};
ghost use Rattle.decode.specs.Sample.{group_sample, sample_of, sample_end, integers_there, integers_read};

// ---- codes 1 and 2

// Sample i of code 1.
fn sample1(block: &[u8], high: bool, i: usize) -> i32
    requires { 2 * i + 2 ≤ length block.now }
    ensures { result ≡ sample_of 1 high block.now i }
{
    sample_bits::twos16(sample::word_at(block, high, 2 * i)) as i32
}

// Of code 2.
fn sample2(block: &[u8], high: bool, i: usize) -> i32
    requires { 4 * i + 4 ≤ length block.now }
    ensures { result ≡ sample_of 2 high block.now i }
{
    sample_bits::twos32(sample::word4_at(block, high, 4 * i))
}

// Fills the row with samples of a code of integers, whose bytes are there. The code is a const parameter, so there is a
// loop for each.
fn fill<const CODE: u8>(block: &[u8], high: bool, row: &mut [i32])
    requires { integers_there CODE (length row.old) block.now ≡ true }
    ensures { row.new ≡ integers_read CODE high block.now row.old }
{
    for i in 0..row.len() {
        row[i] = sample_at(CODE, block, high, i);
    }
}

// Fills the row with samples of code 1. Where the block is too short for it: false, and nothing is written.
pub fn read1(block: &[u8], high: bool, row: &mut [i32]) -> bool
    ensures answer { result ≡ integers_there 1 (length row.old) block.now }
    ensures filled { row.new ≡ integers_read 1 high block.now row.old }
{
    if block.len() / 2 < row.len() {
        return false;
    }
    fill::<1>(block, high, row);
    true
}

// The same of code 2.
pub fn read2(block: &[u8], high: bool, row: &mut [i32]) -> bool
    ensures answer { result ≡ integers_there 2 (length row.old) block.now }
    ensures filled { row.new ≡ integers_read 2 high block.now row.old }
{
    if block.len() / 4 < row.len() {
        return false;
    }
    fill::<2>(block, high, row);
    true
}

// ---- code 3

// Sample k of the group at a place, whose first word is at hand.
fn group_sample(block: &[u8], high: bool, at: usize, exponents: u16, k: u16) -> i32
    requires { (at + 10 ≤ length block.now) × (exponents ≡ word_at 2 high block.now at) × (k < 4) }
    ensures { result ≡ group_sample high block.now at k }
{
    sample_bits::scaled(
        sample_bits::exponent_in(exponents, k),
        sample::word_at(block, high, at + 2 * (k as usize + 1)),
    )
}

// Sample i of code 3, in its group.
fn sample3(block: &[u8], high: bool, i: usize) -> i32
    requires { i / 4 * 10 + 10 ≤ length block.now }
    ensures { result ≡ sample_of 3 high block.now i }
{
    let at = i / 4 * 10;
    let first = sample::word_at(block, high, at);
    group_sample(block, high, at, first, (i % 4) as u16)
}

// The four samples of group g. Each exponent is taken from its word when it is needed, and each sample is stored before
// the next is worked out (document 02, §3).
fn read_group(block: &[u8], high: bool, g: usize, row: &mut [i32])
    requires { (10 * g + 10 ≤ length block.now) × (4 * g + 4 ≤ length row.old) }
    ensures { row.new ≡ put row.old (4 * g) (values_from
        (sample_of 3 high block.now) (4 * g) 4) }
{
    let at = 10 * g;
    let exponents = sample::word_at(block, high, at);
    for k in 0..4u16 {
        row[4 * g + k as usize] = group_sample(block, high, at, exponents, k);
    }
}

// All groups of a row. The order is a const parameter, so there is a loop for each: what is known of the order in its
// body is settled when it is compiled, where the body of one loop for both is too long for the compiler to do so.
fn read_groups<const HIGH: bool>(block: &[u8], row: &mut [i32])
    requires { (length row.old % 4 ≡ 0) × (needed 3 (length row.old) ≤ length block.now) }
    ensures { row.new ≡ values_from (sample_of 3 HIGH block.now) 0 (length row.old) }
{
    for g in 0..row.len() / 4 {
        read_group(block, HIGH, g, row);
    }
}

// The same of code 3. A row that is no number of whole groups is refused as well.
pub fn read3(block: &[u8], high: bool, row: &mut [i32]) -> bool
    ensures answer { result ≡ integers_there 3 (length row.old) block.now }
    ensures filled { row.new ≡ integers_read 3 high block.now row.old }
{
    if row.len() % 4 != 0 {
        return false;
    }
    if block.len() / 10 < row.len() / 4 {
        return false;
    }
    if high {
        read_groups::<true>(block, row);
    } else {
        read_groups::<false>(block, row);
    }
    true
}

// One sample by the code, of those that lie in the block (`sample_inside` says which). 0 for a code of bits, and for
// what is no code.
pub fn sample_at(code: u8, block: &[u8], high: bool, i: usize) -> i32
    requires { sample_end code i ≤ length block.now }
    ensures { result ≡ sample_of code high block.now i }
{
    match code {
        1 => sample1(block, high, i),
        2 => sample2(block, high, i),
        3 => sample3(block, high, i),
        _ => 0,
    }
}

// Integers by the code: false for a code of bits, and for what is no code.
pub fn read_integers(code: u8, block: &[u8], high: bool, row: &mut [i32]) -> bool
    ensures answer { result ≡ integers_there code (length row.old) block.now }
    ensures filled { row.new ≡ integers_read code high block.now row.old }
{
    match code {
        1 => read1(block, high, row),
        2 => read2(block, high, row),
        3 => read3(block, high, row),
        _ => false,
    }
}
