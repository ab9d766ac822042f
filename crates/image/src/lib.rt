// The check of a whole file (document 01, rows 1 to 17, in the order of its table; document 02, row 34). Image has the
// rows in their order, Rest how the code goes through them, Keeps the rules in no order; Accepted proves that an image
// is accepted exactly where it keeps the rules. Stands on `file_length`, `head`, `traces`, `strings_check`. f is the
// image, the first `n` bytes of the lent buffer; t and u are its terminators, `how` is the manner of reading. Each part
// of the check hands on what it read, and each string is read once.
// The rules in words: docs/FORMAT.md, "Refusal numbers, in order of checking".
#![tactic(auto)]

ghost use Rattle.std.specs.Prelude.{◌≡◌, ◌+◌, ◌*◌, ◌≤◌, ◌<◌, length, take};
ghost use Rattle.head.specs.Head.{head_answer, InWords};
ghost use Rattle.trace.specs.Trace.{area_verdict};
ghost use Rattle.image.specs.Image.{rest_of, image_of, check_of};

use head_limits::Purpose;
use head_words::FileBlock;
use refusal::{Part, Refusal, Rule};
use text::Manner;

// Rows 14 to 17 of the file's own strings, which may have a channel number or not. A function, so that what it keeps in
// memory is given back before the traces.
fn own_strings(
    f: &[u8],
    a: usize,
    e: usize,
    high: bool,
    t: &[u8],
    u: &[u8],
    how: Manner,
) -> Result<(), Refusal>
    requires { (a ≤ e) × (e ≤ length f.now) × (0 < length u.now) }
    ensures { result ≡ area_verdict how high t.now u.now f.now Part.File a e }
{
    strings_check::check(f, a, e, high, t, u, Part::File, how)?;
    Ok(())
}

// What comes behind rows 2 to 7: the first pointer, the file's strings, the traces; with N=0 the strings run to the
// end. The first pointer is judged once, and the first trace goes on from it.
fn rest(
    f: &[u8],
    high: bool,
    t: &[u8],
    u: &[u8],
    m: usize,
    n: u16,
    how: Manner,
) -> Result<(), Refusal>
    requires { (32 + m ≤ length f.now) × (4 * n ≤ m) × (0 < length u.now) }
    ensures { result ≡ rest_of how high t.now u.now f.now m n }
{
    let start = 32 + m;
    let p = traces::next(f, high, n, 0, start)?;
    own_strings(f, start, p, high, t, u, how)?;
    traces::traces(f, high, t, u, n, p, how)
}

// Rows 2 to 7, and the file block. A function that hands the answer on arm by arm, so that the memory that it comes back in
// is given back before the rest.
fn top_of(f: &[u8], purpose: Purpose) -> Result<FileBlock, Refusal>
    requires { 32 ≤ length f.now }
    ensures { (result ≡ head_answer purpose (take 32 f.now) (length f.now)) × InWords result }
{
    match head::head(&f[..32], f.len(), purpose) {
        Err(r) => Err(r),
        Ok(x) => Ok(x),
    }
}

// Rows 2 to 17 and 34.
fn image(f: &[u8], purpose: Purpose, how: Manner) -> Result<(), Refusal>
    requires { 32 ≤ length f.now }
    ensures { result ≡ image_of how purpose f.now }
{
    let x = top_of(f, purpose)?;
    let t = terminators::string_end(f);
    let u = terminators::line_end(f);
    rest(f, x.high, t, u, x.m, x.n as u16, how)
}

// The check of a file: the first row met, or accepted.
pub fn check(buffer: &[u8], n: usize, purpose: Purpose, how: Manner) -> Result<(), Refusal>
    ensures { result ≡ check_of how purpose buffer.now n }
{
    if file_length::is_bad_length(buffer.len(), n) {
        return head::refusing(Rule::Length, 0);
    }
    image(&buffer[..n], purpose, how)
}
