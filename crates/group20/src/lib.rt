// A group of code 3 written, on a data block alone (document 01, "Samples"): four samples in five words. Group20 has
// the definitions, GroupLaws the laws. `put_word4` stores the samples of 4 bytes as well. Stands on `float20`, `fit`,
// `sample`, `store`, `word`.
// The rules in words: docs/FORMAT.md, "Samples".
#![tactic(auto)]

ghost use Rattle.std.specs.Prelude.{◌≡◌, None, ◌++◌, ◌+◌, ◌*◌, ◌≤◌, ◌<◌, length};
ghost use Rattle.word.specs.Put.{put};
ghost use Rattle.word.specs.Word.{joined, bytes_of};
ghost use Rattle.fit.specs.Unfit.{unfit_integers};
ghost use Rattle.group20.specs.Group20.{words_of};
ghost use Rattle.group20.specs.GroupLaws.{Words, TwoBytes, front_of};

// The two bytes of a number, stored at a place.
pub fn put_word(part: &mut [u8], high: bool, at: usize, n: u16)
    requires { at + 2 ≤ length part.old }
    ensures { part.new ≡ put part.old at (bytes_of 2 high n) }
{
    store::put2(part, false, at, sample::turned(high, n));
}

// The four bytes.
pub fn put_word4(part: &mut [u8], high: bool, at: usize, n: u32)
    requires { at + 4 ≤ length part.old }
    ensures { part.new ≡ put part.old at (bytes_of 4 high n) }
{
    store_wide::put4(part, false, at, sample::turned4(high, n));
}

// Two words, one behind the other, as one number of four bytes.
fn pair(high: bool, a: u32, b: u32) -> u32
    requires { (a < 65536) × (b < 65536) }
    ensures { result ≡ joined 65536 high a b }
{
    if high { a * 65536 + b } else { b * 65536 + a }
}

// Two words, each in file order, stored at a place. Groups are stored by pairs of words, and so two groups at a time: a
// compiler makes one store of four bytes, and widens a loop over such stores that are a multiple of 4 apart. Of two
// bytes it makes one on some machines only, and ten bytes are no such multiple (docs/PERFORMANCE.md).
fn put_pair(part: &mut [u8], high: bool, at: usize, a: u32, b: u32)
    requires { (at + 4 ≤ length part.old) × (a < 65536) × (b < 65536) }
    ensures { part.new ≡ put part.old at (bytes_of 2 high a ++ bytes_of 2 high b) }
{
    put_word4(part, high, at, pair(high, a, b));
}

// The words of a group: its exponents, and the mantissas of its four samples.
#[derive(Clone, Copy)]
pub struct Group {
    pub w: u32,
    pub a: u32,
    pub b: u32,
    pub c: u32,
    pub d: u32,
}

// Group g of a row. Each exponent and each mantissa is worked out once.
pub fn group_of(row: &[i32], g: usize) -> Group
    requires { (4 * g + 4 ≤ length row.now) × (unfit_integers 3 row.now ≡ None) }
    ensures { Words row.now g result.w result.a result.b result.c result.d }
{
    let i = 4 * g;
    let a = float20::float20_of(row[i]);
    let b = float20::float20_of(row[i + 1]);
    let c = float20::float20_of(row[i + 2]);
    let d = float20::float20_of(row[i + 3]);
    Group {
        w: float20::exponents(a.exponent, b.exponent, c.exponent, d.exponent),
        a: a.mantissa as u32,
        b: b.mantissa as u32,
        c: c.mantissa as u32,
        d: d.mantissa as u32,
    }
}

// A group but for its last word, which goes with the group behind it.
pub fn put_front(part: &mut [u8], high: bool, at: usize, p: Group)
    requires { (at + 8 ≤ length part.old) × TwoBytes p.w p.a p.b p.c p.d }
    ensures { part.new ≡ put part.old at (front_of high p.w p.a p.b p.c) }
{
    put_pair(part, high, at, p.w, p.a);
    put_pair(part, high, at + 4, p.b, p.c);
}

// The last word of a group, and the group behind it.
pub fn put_back(part: &mut [u8], high: bool, at: usize, last: u32, q: Group)
    requires { (at + 12 ≤ length part.old) × (last < 65536) × TwoBytes q.w q.a q.b q.c q.d }
    ensures { part.new ≡ put part.old at (bytes_of 2 high last
        ++ words_of high q.w q.a q.b q.c q.d) }
{
    put_pair(part, high, at, last, q.w);
    put_pair(part, high, at + 4, q.a, q.b);
    put_pair(part, high, at + 8, q.c, q.d);
}
