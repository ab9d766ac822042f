// Codes 4 and 5 read, on a data block alone (document 01, "Samples"): bit patterns and their classes. The definitions
// are those of decode/Sample; Classes holds the classes against IEEE 754. `high` says that the high byte comes first.
// Stands on `decode` for its definitions, `sample`, `word`.
// The rules in words: docs/FORMAT.md, "Samples".
#![tactic(auto)]

ghost use Rattle.std.specs.Prelude.{◌≡◌, true, ◌+◌, map, ◌≤◌, length};
ghost use Rattle.sample.specs.Needed.{needed};
ghost use Rattle.sample.specs.Run.{values_from};
ghost use Rattle.decode.specs.Sample.{pattern_of, class_of, bits_asked, bits_there, patterns_read, classes_read};

// The class that the exponent bits and the fraction bits tell (the paper's table of special cases): 0 zero, 1
// underflow, 2 number, 3 infinity, 4 not a number. It is how many of four bounds the bits behind the sign have passed
// as one number, which asks for no branch.
#[tactic(auto, using(crate::proofs::Machine::one_at_most))]
fn class4(pattern: u64) -> u8
    ensures { result ≡ class_of 4 pattern }
{
    let m = (pattern % 2147483648) as u32;
    (0 < m) as u8 + (8388607 < m) as u8 + (2139095039 < m) as u8 + (2139095040 < m) as u8
}

// Of code 5, which needs 64 bits for it. Code 4 is counted in 32, as a machine compares twice as many of these at a
// time.
#[tactic(auto, using(crate::proofs::Machine::one_at_most))]
fn class5(pattern: u64) -> u8
    ensures { result ≡ class_of 5 pattern }
{
    let m = pattern % 9223372036854775808;
    (0 < m) as u8
        + (4503599627370495 < m) as u8
        + (9218868437227405311 < m) as u8
        + (9218868437227405312 < m) as u8
}

// Pattern i.
fn pattern_at(code: u8, block: &[u8], high: bool, i: usize) -> u64
    requires { (bits_asked code ≡ true) × (needed code (i + 1) ≤ length block.now) }
    ensures { result ≡ pattern_of code high block.now i }
{
    if code == 4 {
        sample::word4_at(block, high, 4 * i) as u64
    } else {
        sample::word8_at(block, high, 8 * i)
    }
}

fn class(code: u8, pattern: u64) -> u8
    requires { bits_asked code ≡ true }
    ensures { result ≡ class_of code pattern }
{
    if code == 4 {
        class4(pattern)
    } else {
        class5(pattern)
    }
}

// The patterns of a row.
fn patterns<const CODE: u8, const HIGH: bool>(block: &[u8], row: &mut [u64])
    requires { (bits_asked CODE ≡ true) × (needed CODE (length row.old) ≤ length block.now) }
    ensures { row.new ≡ values_from (pattern_of CODE HIGH block.now) 0 (length row.old) }
{
    for i in 0..row.len() {
        row[i] = pattern_at(CODE, block, HIGH, i);
    }
}

// Their classes.
fn classify<const CODE: u8>(row: &[u64], classes: &mut [u8])
    requires { (bits_asked CODE ≡ true) × (length classes.old ≡ length row.now) }
    ensures { classes.new ≡ map (class_of CODE) row.now }
{
    for (i, pattern) in row.iter().enumerate() {
        classes[i] = class(CODE, *pattern);
    }
}

// Both. The code and the order are const parameters, so there are loops for each: what is known of them in a loop's
// body is settled when it is compiled, where the body of one loop for all is too long for the compiler to do so.
fn fill<const CODE: u8, const HIGH: bool>(block: &[u8], row: &mut [u64], classes: &mut [u8])
    requires { (bits_asked CODE ≡ true) × (length classes.old ≡ length row.old)
        × (needed CODE (length row.old) ≤ length block.now) }
    ensures filled { row.new ≡ values_from (pattern_of CODE HIGH block.now) 0 (length row.old) }
    ensures classed { classes.new ≡ map (class_of CODE) row.new }
{
    patterns::<CODE, HIGH>(block, row);
    classify::<CODE>(row, classes);
}

// Fills the row with the patterns of a code of bits, and `classes` with their classes. Where the two differ in length,
// or the block is too short: false, and nothing is written.
fn read<const CODE: u8>(block: &[u8], high: bool, row: &mut [u64], classes: &mut [u8]) -> bool
    requires { bits_asked CODE ≡ true }
    ensures answer { result ≡ bits_there CODE (length row.old) (length classes.old)
        block.now }
    ensures filled { row.new ≡ patterns_read CODE high block.now row.old
        classes.old }
    ensures classed { classes.new
        ≡ classes_read CODE high block.now row.old classes.old }
{
    if classes.len() != row.len() {
        return false;
    }
    if block.len() / sample::needed(CODE, 1) < row.len() {
        return false;
    }
    if high {
        fill::<CODE, true>(block, row, classes);
    } else {
        fill::<CODE, false>(block, row, classes);
    }
    true
}

// The same of code 4.
pub fn read4(block: &[u8], high: bool, row: &mut [u64], classes: &mut [u8]) -> bool
    ensures answer { result ≡ bits_there 4 (length row.old) (length classes.old)
        block.now }
    ensures filled { row.new ≡ patterns_read 4 high block.now row.old
        classes.old }
    ensures classed { classes.new
        ≡ classes_read 4 high block.now row.old classes.old }
{
    read::<4>(block, high, row, classes)
}

// The same of code 5.
pub fn read5(block: &[u8], high: bool, row: &mut [u64], classes: &mut [u8]) -> bool
    ensures answer { result ≡ bits_there 5 (length row.old) (length classes.old)
        block.now }
    ensures filled { row.new ≡ patterns_read 5 high block.now row.old
        classes.old }
    ensures classed { classes.new
        ≡ classes_read 5 high block.now row.old classes.old }
{
    read::<5>(block, high, row, classes)
}

// Bits by the code: false for a code of integers, and for what is no code.
pub fn read_bits(code: u8, block: &[u8], high: bool, row: &mut [u64], classes: &mut [u8]) -> bool
    ensures answer { result ≡ bits_there code (length row.old) (length classes.old)
        block.now }
    ensures filled { row.new ≡ patterns_read code high block.now row.old
        classes.old }
    ensures classed { classes.new
        ≡ classes_read code high block.now row.old classes.old }
{
    match code {
        4 => read4(block, high, row, classes),
        5 => read5(block, high, row, classes),
        _ => false,
    }
}
