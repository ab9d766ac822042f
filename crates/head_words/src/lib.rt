// The file block as its first 32 bytes say it: byte order, pointer room, count and the lengths of the two terminators
// (document 01, "The file block"). HeadWords has the definitions. Stands on `word`.
// The rules in words: docs/FORMAT.md, "The file block".
#![tactic(auto)]

ghost use Rattle.std.specs.Prelude.{◌≡◌, ◌≤◌, ◌<◌, length};
ghost use Rattle.head_words.specs.HeadWords.{high_first, file_block_of};

// The byte order, M, N, and the lengths of the string terminator (its characters stand from byte 9 on) and of the line
// terminator (from 12 on).
#[derive(Clone, Copy)]
pub struct FileBlock {
    pub high: bool,
    pub m: usize,
    pub n: usize,
    pub strings: usize,
    pub lines: usize,
}

// The order of an image of which it is known.
pub fn is_high(f: &[u8]) -> bool
    requires { 2 ≤ length f.now }
    ensures { result ≡ high_first f.now }
{
    f[0] == 58
}

// The block that the first 32 bytes are, of an image of which it is known to be one.
pub fn file_block(b: &[u8]) -> FileBlock
    requires { 32 ≤ length b.now }
    ensures { (result ≡ file_block_of b.now) × (result.m < 65536) × (result.n < 65536) }
{
    let high = is_high(b);
    let m = word::word2(b, high, 4);
    let n = word::word2(b, high, 6);
    FileBlock {
        high,
        m,
        n,
        strings: word::wide(b[8]),
        lines: word::wide(b[11]),
    }
}
