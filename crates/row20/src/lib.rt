// A row of samples in groups of code 3, on a data block alone (document 01, "Samples"). Row20 has the definition,
// RowLaws the laws. Stands on `group20`, `fit`, `sample`, `word`.
// The rules in words: docs/FORMAT.md, "Samples".
#![tactic(auto)]

ghost use Rattle.std.specs.Prelude.{◌≡◌, None, ◌+◌, ◌*◌, ◌/◌, ◌%◌, ◌≤◌, ◌<◌, length};
ghost use Rattle.word.specs.Put.{put};
ghost use Rattle.sample.specs.Needed.{room};
ghost use Rattle.fit.specs.Unfit.{unfit_integers};
ghost use Rattle.row20.specs.Row20.{groups};
ghost use Rattle.row20.specs.RowLaws.{Writing, pairs_from};

// The pairs of groups of a row. The order is a const parameter, as `decode` has it.
fn write_pairs<const HIGH: bool>(row: &[i32], part: &mut [u8])
    requires { (room 3 (length row.now) ≤ length part.old) × (length row.now % 4 ≡ 0)
        × (unfit_integers 3 row.now ≡ None) }
    ensures { Writing (pairs_from HIGH row.now) 20 part.old (length row.now / 8)
        part.new }
{
    for k in 0..row.len() / 8 {
        let p = group20::group_of(row, 2 * k);
        group20::put_front(part, HIGH, 20 * k, p);
        let q = group20::group_of(row, 2 * k + 1);
        group20::put_back(part, HIGH, 20 * k + 8, p.d, q);
    }
}

// What is left of a row behind so many pairs of groups: one group, or nothing.
fn write_rest(row: &[i32], high: bool, pairs: usize, part: &mut [u8])
    requires { (8 * pairs ≤ length row.now) × (length row.now < 8 * pairs + 8)
        × (room 3 (length row.now) ≤ length part.old) × (length row.now % 4 ≡ 0)
        × (unfit_integers 3 row.now ≡ None) }
    ensures { part.new ≡ put part.old (20 * pairs)
        (pairs_from high row.now pairs) }
{
    if 8 * pairs < row.len() {
        let at = 20 * pairs;
        let p = group20::group_of(row, 2 * pairs);
        group20::put_front(part, high, at, p);
        group20::put_word(part, high, at + 8, p.d as u16);
    }
}

// The groups of a row.
pub fn write_groups(row: &[i32], high: bool, part: &mut [u8])
    requires { (room 3 (length row.now) ≤ length part.old) × (length row.now % 4 ≡ 0)
        × (unfit_integers 3 row.now ≡ None) }
    ensures { part.new ≡ put part.old 0 (groups high row.now) }
{
    if high {
        write_pairs::<true>(row, part);
    } else {
        write_pairs::<false>(row, part);
    }
    write_rest(row, high, row.len() / 8, part);
}
