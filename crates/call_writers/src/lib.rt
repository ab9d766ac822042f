// What `seg2` exports of the writers, under Rattle's own name. Each answer crosses as `face` hands it over. Stands on `start`,
// `writer`.
// The rules in words: docs/FORMAT.md, "Refusal numbers, in order of checking".
#![tactic(auto)]

ghost use Rattle.std.specs.Prelude.{◌≡◌};
ghost use Rattle.layout.specs.Layout.{integers_trace, patterns_trace};
ghost use Rattle.start.specs.Start.{start_answer, start_needs, start_left};
ghost use Rattle.writer.specs.Answers.{add_answer, add_needs, add_left};
ghost use Rattle.face.specs.Face.{as_length};

use face::Seg2Length;

// A new file without traces: the byte order (0 low first, 1 high first), the pointer slots, the file's sheet.
pub fn start(buffer: &mut [u8], order: u32, slots: u32, sheet: &[u8]) -> Seg2Length
    ensures answer { result ≡ as_length (start_answer buffer.old order slots sheet.now) }
    ensures left { buffer.new ≡ start_left buffer.old order slots sheet.now }
{
    face::length_told(start::start(buffer, order as usize, slots as usize, sheet))
}

// The length that the file of a start would have, without a buffer.
pub fn start_size(order: u32, slots: u32, sheet: &[u8]) -> Seg2Length
    ensures { result ≡ as_length (start_needs order slots sheet.now) }
{
    face::length_told(start::size(order as usize, slots as usize, sheet))
}

// A trace of integers (codes 1 to 3) behind the image that the buffer's first `n` bytes are.
pub fn add_integers(buffer: &mut [u8], n: usize, sheet: &[u8], code: u32, row: &[i32]) -> Seg2Length
    ensures answer { result ≡ as_length (add_answer buffer.old n
        (integers_trace sheet.now code row.now)) }
    ensures left { buffer.new
        ≡ add_left buffer.old n (integers_trace sheet.now code row.now) }
{
    face::length_told(writer::add_integers(buffer, n, sheet, code, row))
}

// A trace of bit patterns (codes 4 and 5).
pub fn add_bits(buffer: &mut [u8], n: usize, sheet: &[u8], code: u32, row: &[u64]) -> Seg2Length
    ensures answer { result ≡ as_length (add_answer buffer.old n
        (patterns_trace sheet.now code row.now)) }
    ensures left { buffer.new
        ≡ add_left buffer.old n (patterns_trace sheet.now code row.now) }
{
    face::length_told(writer::add_bits(buffer, n, sheet, code, row))
}

// The length that the file would have with one trace more, without room for it and without its samples.
pub fn add_size(buffer: &[u8], n: usize, sheet: &[u8], code: u32, count: usize) -> Seg2Length
    ensures { result ≡ as_length (add_needs buffer.now n sheet.now code count) }
{
    face::length_told(writer::size(buffer, n, sheet, code, count))
}
