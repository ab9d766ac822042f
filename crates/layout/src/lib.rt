// The bytes that are written (document 01, "What we write"): a file block with its slots and strings, and a trace with
// its strings and data, each stored where the caller lends it. Layout has the definitions, LayoutLaws what stands
// where, Stores that the stores make them. Stands on `area`, `encode`, `block`, `head` and what they stand on.
// The rules in words: docs/FORMAT.md, "What we write".
#![tactic(auto)]

ghost use Rattle.std.specs.Prelude.{◌≡◌, ◌+◌, ◌-◌, ◌*◌, ◌≤◌, ◌<◌, length, Ok};
ghost use Rattle.word.specs.Put.{put};
ghost use Rattle.sample.specs.Needed.{room};
ghost use Rattle.sheet.specs.Area.{area_of, measured_of};
ghost use Rattle.sheet_texts.specs.Texts.{Writable};
ghost use Rattle.layout.specs.Layout.{nul, line_feed, slots_most, file_block, start_image, trace_block, integers};
ghost use Rattle.layout.specs.Layout.{patterns, samples_data};
ghost use Rattle.layout.specs.Stores.{head_bytes, Held};

// "31 slots outside 1 to 16,383": `slots_most` of the definitions.
pub const SLOTS: usize = 16383;

// The file block of a start, N=0: the order's mark, which is one word in either order, revision 1, M, N, and the
// terminators 00 and 0A.
fn put_file_block(buf: &mut [u8], high: bool, m: u16)
    requires { 32 ≤ length buf.old }
    ensures { buf.new ≡ put buf.old 0 (file_block high m 0) }
{
    store::put2(buf, high, 0, 14933);
    store::put2(buf, high, 2, 1);
    store::put2(buf, high, 4, m);
    store::put2(buf, high, 6, 0);
    store_bytes::copy(buf, 8, &[1, 0, 0, 1, 10, 0]);
    store_bytes::zeros(buf, 14, 32);
}

// A sheet's area from a place on: the buffer from there on is lent.
fn put_area(buf: &mut [u8], at: usize, high: bool, t: &[u8], u: &[u8], sheet: &[u8])
    requires { (at ≤ length buf.old) × Writable t.now u.now sheet.now (length buf.old - at) }
    ensures { buf.new ≡ put buf.old at (area_of high t.now u.now
        sheet.now) }
{
    area::write_area(&mut buf[at..], high, t, u, sheet);
}

// The image of a start.
pub fn put_start(buf: &mut [u8], high: bool, slots: usize, sheet: &[u8])
    requires { (slots ≤ slots_most) × (32 + 4 * slots ≤ length buf.old)
        × Writable nul line_feed sheet.now (length buf.old - (32 + 4 * slots)) }
    ensures { buf.new ≡ put buf.old 0 (start_image high slots sheet.now) }
{
    let m = 4 * slots;
    let at = 32 + m;
    put_file_block(buf, high, m as u16);
    store_bytes::zeros(buf, 32, at);
    put_area(buf, at, high, b"\0", b"\n", sheet);
}

// The block of a trace, 32 bytes.
fn put_block(part: &mut [u8], high: bool, b: u16, d: u32, s: u32, code: u8)
    requires { 32 ≤ length part.old }
    ensures { part.new ≡ put part.old 0 (trace_block high b d s code) }
{
    store::put2(part, high, 0, 17442);
    store::put2(part, high, 2, b);
    store_wide::put4(part, high, 4, d);
    store_wide::put4(part, high, 8, s);
    store_bytes::copy(part, 12, &[code]);
    store_bytes::zeros(part, 13, 32);
}

// All of a trace before its samples, the block and the strings, into the free end of a buffer, which is lent from the
// trace's first byte on.
pub fn put_head(
    part: &mut [u8],
    high: bool,
    t: &[u8],
    u: &[u8],
    sheet: &[u8],
    size: usize,
    code: u8,
    s: u32,
)
    requires { (32 + size ≤ length part.old) × (measured_of t.now u.now sheet.now ≡ Ok size)
        × (room code s < 4294967296) }
    ensures { part.new ≡ put part.old 0 (head_bytes high t.now u.now
        sheet.now code s) }
{
    let d = sample::room(code, s) as u32;
    put_block(part, high, (32 + size) as u16, d, s, code);
    put_area(part, 32, high, t, u, sheet);
}

// The samples' bytes under codes 1 to 3: the buffer from their place on is lent to the code's encoder.
pub fn put_integers(buf: &mut [u8], at: usize, high: bool, code: u32, row: &[i32])
    requires { (at + room code (length row.now) ≤ length buf.old) × Held code (integers row.now) }
    ensures { buf.new ≡ put buf.old at (samples_data code high (integers row.now)) }
{
    let part = &mut buf[at..];
    match code {
        1 => encode::write1(row, high, part),
        2 => encode::write2(row, high, part),
        _ => encode::write3(row, high, part),
    }
}

// The samples' bytes under codes 4 and 5.
pub fn put_bits(buf: &mut [u8], at: usize, high: bool, code: u32, row: &[u64])
    requires { (at + room code (length row.now) ≤ length buf.old) × Held code (patterns row.now) }
    ensures { buf.new ≡ put buf.old at (samples_data code high (patterns row.now)) }
{
    let part = &mut buf[at..];
    match code {
        4 => encode::write4(row, high, part),
        _ => encode::write5(row, high, part),
    }
}
