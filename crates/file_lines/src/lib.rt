// The lines of an accepted file in its listing, into a row of bytes that the caller lends (document 01, the end of
// "Worked values"): the file's own, then each trace's. FileLines has the definitions. Stands on `string_lines`, `image`
// and what they stand on.
// The rules in words: docs/FORMAT.md, "Worked values".
#![tactic(auto)]

ghost use Rattle.std.specs.Prelude.{◌≡◌, ◌≤◌, ◌<◌, length};
ghost use Rattle.refusal.specs.Verdicts.{accepted};
ghost use Rattle.word.specs.Wrote.{Room, Wrote};
ghost use Rattle.text.specs.declared.Manner.TheVariants.{Strict};
ghost use Rattle.head_limits.specs.declared.Purpose.TheVariants.{Read};
ghost use Rattle.head_words.specs.HeadWords.{count_of};
ghost use Rattle.image.specs.Image.{image_of};
ghost use Rattle.file_lines.specs.FileLines.{trace_text, traces_text, file_text};

use refusal::Part;

// A trace of an accepted file: its line and its strings.
fn put_trace(out: &mut [u8], at: usize, f: &[u8], k: u16) -> usize
    requires { (image_of Strict Read f.now ≡ accepted) × (32 ≤ length f.now) × (k < count_of f.now)
        × Room out.old at (trace_text f.now k) }
    ensures { Wrote out.old at (trace_text f.now k) result out.new }
{
    let high = head_words::is_high(f);
    let b = block::trace_block(f, high, k);
    let from = b.p + 32;
    let to = b.p + b.b;
    let c = lines::put_trace_line(out, at, k, b.code, b.s);
    string_lines::put_strings(
        out,
        c,
        Part::Trace(k),
        f,
        from,
        to,
        high,
        terminators::string_end(f),
        terminators::line_end(f),
    )
}

// The traces of an accepted file.
fn put_traces(out: &mut [u8], at: usize, f: &[u8], n: u16) -> usize
    requires { (image_of Strict Read f.now ≡ accepted) × (32 ≤ length f.now) × (n ≡ count_of f.now)
        × Room out.old at (traces_text f.now n 0) }
    ensures { Wrote out.old at (traces_text f.now n 0) result out.new }
{
    let mut to = at;
    for k in 0..n {
        to = put_trace(out, to, f, k);
    }
    to
}

// An accepted file.
pub fn put_file(out: &mut [u8], f: &[u8]) -> usize
    requires { (image_of Strict Read f.now ≡ accepted) × (32 ≤ length f.now)
        × Room out.old 0 (file_text f.now) }
    ensures { Wrote out.old 0 (file_text f.now) result out.new }
{
    let b = head_words::file_block(f);
    let high = b.high;
    let start = 32 + b.m;
    let first = block::pointer(f, high, 0);
    let c = lines::put_head(out, 0, high, b.n, b.m);
    let d = string_lines::put_strings(
        out,
        c,
        Part::File,
        f,
        start,
        first,
        high,
        terminators::string_end(f),
        terminators::line_end(f),
    );
    put_traces(out, d, f, b.n as u16)
}
