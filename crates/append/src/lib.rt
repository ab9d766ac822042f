// The stores of an addition (document 01, "What we write"): the gap, the new trace at the old end rounded up, its
// pointer and N, in this order. Grown has the definition. What differs by the kind of the samples is their encoding
// alone. Stands on `layout`, `head`.
// The rules in words: docs/FORMAT.md, "What we write".
#![tactic(auto)]

ghost use Rattle.std.specs.Prelude.{◌≡◌, ◌-◌, length, take};
ghost use Rattle.word.specs.Put.{put};
ghost use Rattle.sample.specs.Needed.{room};
ghost use Rattle.head_words.specs.HeadWords.{high_first};
ghost use Rattle.layout.specs.Layout.{integers, patterns, integers_trace, patterns_trace};
ghost use Rattle.layout.specs.Stores.{Held};
ghost use Rattle.append.specs.GrownLaws.{new_front, registered, Slotted, Begins};
ghost use Rattle.append.specs.Grown.{grown};

// Where the samples of a trace that is begun go, and in which byte order.
#[derive(Clone, Copy)]
pub struct Begun {
    pub at: usize,
    pub high: bool,
}

// All before the samples: the gap, and the block and the strings into the free end of the buffer, which is lent from
// the new trace on. The terminators are taken out of the file first: they stand at the buffer's start.
fn begin(buffer: &mut [u8], n: usize, sheet: &[u8], end: usize, code: u32, count: usize) -> Begun
    requires { Begins buffer.old n sheet.now end code count }
    ensures place { (result.at ≡ end - room code count) × (result.high ≡ high_first (take n buffer.old)) }
    ensures left { buffer.new
        ≡ put buffer.old n (new_front (take n buffer.old) n sheet.now code count) }
{
    let b = head_words::file_block(&buffer[..n]);
    let at = word::round_up(n);
    let c = code as u8;
    let s = count as u32;
    let data = end - sample::room(c, s);
    let t = [buffer[9], buffer[10]];
    let u = [buffer[12], buffer[13]];
    store_bytes::zeros(buffer, n, at); // the gap
    layout::put_head(
        &mut buffer[at..],
        b.high,
        &t[..b.strings],
        &u[..b.lines],
        sheet,
        data - at - 32,
        c,
        s,
    );
    Begun {
        at: data,
        high: b.high,
    }
}

// The pointer to the new trace in the first free slot, and N one more. Only now is the trace one of the file's.
fn register(buffer: &mut [u8], n: usize)
    requires { Slotted buffer.old n }
    ensures { buffer.new ≡ registered buffer.old n }
{
    let b = head_words::file_block(&buffer[..n]);
    let at = word::round_up(n);
    store_wide::put4(buffer, b.high, 32 + 4 * b.n, at as u32);
    store::put2(buffer, b.high, 6, b.n as u16 + 1);
}

pub fn grow_integers(buffer: &mut [u8], n: usize, sheet: &[u8], end: usize, code: u32, row: &[i32])
    requires { Begins buffer.old n sheet.now end code (length row.now) × Held code (integers row.now) }
    ensures { buffer.new ≡ grown buffer.old n
        (integers_trace sheet.now code row.now) }
{
    let b = begin(buffer, n, sheet, end, code, row.len());
    layout::put_integers(buffer, b.at, b.high, code, row);
    register(buffer, n);
}

pub fn grow_bits(buffer: &mut [u8], n: usize, sheet: &[u8], end: usize, code: u32, row: &[u64])
    requires { Begins buffer.old n sheet.now end code (length row.now) × Held code (patterns row.now) }
    ensures { buffer.new ≡ grown buffer.old n
        (patterns_trace sheet.now code row.now) }
{
    let b = begin(buffer, n, sheet, end, code, row.len());
    layout::put_bits(buffer, b.at, b.high, code, row);
    register(buffer, n);
}
