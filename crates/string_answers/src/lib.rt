// The questions on strings and keywords (document 01, "Strings", row 18). The definitions are reader/Questions. Every
// question checks the whole file first; its answer is one of the image, the first `n` bytes of the lent buffer. A part is
// -1 for the file, else the trace; `how` is the manner of reading. Stands on `reader`, `lookup`.
// The rules in words: docs/FORMAT.md, "Strings".
#![tactic(auto)]

ghost use Rattle.std.specs.Prelude.{◌≡◌};
ghost use Rattle.reader.specs.Questions.{count_answer, nth_answer};
ghost use Rattle.reader.specs.Questions.{find_answer, keyword_answer};

use refusal::Refusal;
use strings::Place;
use text::Manner;

// How many strings a part has.
pub fn string_count(buffer: &[u8], n: usize, part: i32, how: Manner) -> Result<usize, Refusal>
    ensures { result ≡ count_answer how buffer.now n part }
{
    let (a, e) = reader::open_area(buffer, n, part, how)?;
    let f = &buffer[..n];
    let high = head_words::is_high(f);
    let t = terminators::string_end(f);
    Ok(lookup::count(f, a, e, high, t, how))
}

// The i-th string of a part, counted from 0; past the last there is none.
pub fn string(
    buffer: &[u8],
    n: usize,
    part: i32,
    i: usize,
    how: Manner,
) -> Result<Option<Place>, Refusal>
    ensures { result ≡ nth_answer how buffer.now n part i }
{
    let (a, e) = reader::open_area(buffer, n, part, how)?;
    let f = &buffer[..n];
    let high = head_words::is_high(f);
    let t = terminators::string_end(f);
    Ok(lookup::nth(f, a, e, high, t, i, how))
}

// The string with a keyword. Any bytes may be asked for.
pub fn find(
    buffer: &[u8],
    n: usize,
    part: i32,
    key: &[u8],
    how: Manner,
) -> Result<Option<Place>, Refusal>
    ensures { result ≡ find_answer how buffer.now n part key.now }
{
    let (a, e) = reader::open_area(buffer, n, part, how)?;
    let f = &buffer[..n];
    let high = head_words::is_high(f);
    let t = terminators::string_end(f);
    Ok(lookup::find(f, a, e, high, t, key, how))
}

// "A keyword question is two calls: one answers yes, no or the refusal".
pub fn keyword(buffer: &[u8], n: usize, part: i32, key: &[u8], how: Manner) -> Result<bool, Refusal>
    ensures { result ≡ keyword_answer how buffer.now n part key.now }
{
    Ok(find(buffer, n, part, key, how)?.is_some())
}
