// What reading and writing samples share (document 01, "Samples"): how many bytes a count of samples takes, and a word
// of 2, 4 or 8 bytes in either byte order, turned as a whole. Definitions in Needed, Run and Turned. Stands on `word`.
// The rules in words: docs/FORMAT.md, "Samples".
#![tactic(auto)]

ghost use Rattle.std.specs.Prelude.{◌≡◌, ◌+◌, ◌≤◌, ◌<◌, length};
ghost use Rattle.sample.specs.Needed.{needed, room};
ghost use Rattle.sample.specs.Turned.{turned};
ghost use Rattle.word.specs.Word.{word_at};

// ---- sizes

// The bytes that `count` samples need. A count in a file has 32 bits, so that no product wraps.
pub fn needed(code: u8, count: u32) -> usize
    ensures { (result ≡ needed code count) × (result < 34359738368) }
{
    let s = count as usize;
    match code {
        1 => 2 * s,
        2 => 4 * s,
        3 => 10 * s / 4,
        4 => 4 * s,
        5 => 8 * s,
        _ => 0,
    }
}

// The data bytes that are written for them.
pub fn room(code: u8, count: u32) -> usize
    ensures { (result ≡ room code count) × (result ≤ 34359738368) }
{
    word::round_up(needed(code, count))
}

// ---- words in either order

// The bytes of a word the other way round, where the high one comes first. A word is read and written low byte first,
// as the machine does in one step, and then turned, which is one step as well. So a loop over words has no branch on
// the order.
pub fn turned(high: bool, n: u16) -> u16
    ensures { result ≡ turned 2 high n }
{
    if high { n.swap_bytes() } else { n }
}

// Of four bytes.
pub fn turned4(high: bool, n: u32) -> u32
    ensures { result ≡ turned 4 high n }
{
    if high { n.swap_bytes() } else { n }
}

// Of eight bytes.
pub fn turned8(high: bool, n: u64) -> u64
    ensures { result ≡ turned 8 high n }
{
    if high { n.swap_bytes() } else { n }
}

// The whole number of two bytes at a place.
pub fn word_at(block: &[u8], high: bool, at: usize) -> u16
    requires { at + 2 ≤ length block.now }
    ensures { result ≡ word_at 2 high block.now at }
{
    turned(high, word::word2(block, false, at) as u16)
}

// Of four bytes.
pub fn word4_at(block: &[u8], high: bool, at: usize) -> u32
    requires { at + 4 ≤ length block.now }
    ensures { result ≡ word_at 4 high block.now at }
{
    turned4(high, word::word4(block, false, at) as u32)
}

// Of eight bytes.
pub fn word8_at(block: &[u8], high: bool, at: usize) -> u64
    requires { at + 8 ≤ length block.now }
    ensures { result ≡ word_at 8 high block.now at }
{
    turned8(high, word::word8(block, false, at))
}
