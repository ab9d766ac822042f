// Which samples a code can hold (document 01, refusal 29): the first of a row that it cannot. Unfit has the
// definitions. Stands on `sample`, `word`.
// The rules in words: docs/FORMAT.md, "Samples".
#![tactic(auto)]

ghost use Rattle.std.specs.Prelude.{◌≡◌, ◌||◌, false, fold, position};
ghost use Rattle.fit.specs.Unfit.{first_from, outside, unfit_integers, unfit_pattern, unfit_patterns};

// Whether a sample is outside: not from `low` to `high`.
fn is_outside(v: i32, low: i32, high: i32) -> bool
    ensures { result ≡ outside low high v }
{
    (v < low) | (high < v)
}

// The first sample outside.
fn first_outside(row: &[i32], low: i32, high: i32) -> Option<usize>
    ensures { result ≡ position (outside low high) row.now }
{
    row.iter().position(|v| is_outside(*v, low, high))
}

// Whether one was found before, or this sample is outside.
fn is_found(found: bool, v: i32, low: i32, high: i32) -> bool
    ensures { result ≡ (found || outside low high v) }
{
    found | is_outside(v, low, high)
}

// Whether any sample is outside. The fold has no early way out, so that a compiler can test many at a time.
fn any_outside(row: &[i32], low: i32, high: i32) -> bool
    ensures { result ≡ fold (λ found v. found || outside low high v) false row.now }
{
    row.iter()
        .fold(false, |found, v| is_found(found, *v, low, high))
}

// The first is looked for only where there is one.
fn outside_of(row: &[i32], low: i32, high: i32) -> Option<usize>
    ensures { result ≡ first_from (outside low high) 0 row.now }
{
    if any_outside(row, low, high) {
        return first_outside(row, low, high);
    }
    None
}

// The first sample of a row that the code cannot hold (refusal 29); none, where it can hold them all.
pub fn unfit_integers(code: u8, row: &[i32]) -> Option<usize>
    ensures { result ≡ unfit_integers code row.now }
{
    match code {
        1 => outside_of(row, -32768, 32767),
        3 => outside_of(row, -1073741823, 1073741823),
        _ => None,
    }
}

// Whether a pattern is wide: it has more than 32 bits.
fn is_wide(n: u64) -> bool
    ensures { result ≡ unfit_pattern 4 n }
{
    4294967296 <= n
}

// The first wide pattern.
fn first_wide(row: &[u64]) -> Option<usize>
    ensures { result ≡ position (unfit_pattern 4) row.now }
{
    row.iter().position(|n| is_wide(*n))
}

// Whether any pattern is wide; the same fold.
fn any_wide(row: &[u64]) -> bool
    ensures { result ≡ fold (λ found n. found || unfit_pattern 4 n) false row.now }
{
    row.iter().fold(false, |found, n| found | is_wide(*n))
}

fn wide_of(row: &[u64]) -> Option<usize>
    ensures { result ≡ unfit_patterns 4 row.now }
{
    if any_wide(row) {
        return first_wide(row);
    }
    None
}

// The first pattern of a row that the code cannot hold.
pub fn unfit_bits(code: u8, row: &[u64]) -> Option<usize>
    ensures { result ≡ unfit_patterns code row.now }
{
    match code {
        4 => wide_of(row),
        _ => None,
    }
}
