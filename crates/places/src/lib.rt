// The strings of an area in one row of numbers: for each string where its keyword starts and how long it is, where its
// value starts and how long it is. Numbers has the definition and a law for each turn of the loop. Stands on `lookup`,
// `strings`. An area is the bytes of a file from place a to place e; t is the string terminator, `high` the byte order,
// `how` the manner of reading.
// The rules in words: docs/FORMAT.md, "Strings".
#![tactic(auto)]

ghost use Rattle.std.specs.Prelude.{◌≡◌, ◌+◌, ◌*◌, ◌≤◌, ◌<◌, length};
ghost use Rattle.word.specs.Part.{part};
ghost use Rattle.word.specs.Put.{put};
ghost use Rattle.strings.specs.Strings.{places_of, PlaceIn};
ghost use Rattle.places.specs.Numbers.{four_of, numbers_of};

use strings::Place;
use text::Manner;

// The four numbers of a string, from the j-th of the row on. e is the area's end.
fn write(row: &mut [usize], j: usize, p: Place, e: usize)
    requires { (j + 4 ≤ length row.old) × PlaceIn e p }
    ensures { row.new ≡ put row.old j (four_of p) }
{
    let j1 = j + 1;
    let j2 = j1 + 1;
    let j3 = j2 + 1;
    row[j] = p.key;
    row[j1] = p.gap - p.key;
    row[j2] = p.value;
    row[j3] = p.end - p.value;
}

// The strings of the area from a to e of f, into a row of four numbers each.
pub fn fill(f: &[u8], a: usize, e: usize, high: bool, t: &[u8], how: Manner, row: &mut [usize])
    requires { (a ≤ e) × (e ≤ length f.now) × (length row.old
        ≡ 4 * length (places_of how high t.now (part a e f.now) a)) × (length row.old < 18446744073709551616) }
    ensures { row.new ≡ numbers_of (places_of how high t.now (part a e f.now) a) }
{
    let mut at = a;
    let mut j: usize = 0;
    while at < e {
        let Some((p, o)) = string_entry::entry_at(&f[at..e], high, t, at, how) else {
            return;
        };
        write(row, j, p, e);
        j += 4;
        at += o;
    }
}
