// The listing of a file, and what the listing program prints, into a row of bytes that the caller lends (document 01,
// the end of "Worked values"). Row 19 is the program's: `list` takes a file of any length that the check takes.
// Listing has the definitions; Room proves that 16 bytes for each of the input's and 64 more are enough, Printed that
// the strings are those that the file spells.
// Stands on `file_lines`, `lines`, `image` and what they stand on.
// The rules in words: docs/FORMAT.md, "Worked values".
#![tactic(auto)]

ghost use Rattle.std.specs.Prelude.{◌≡◌, ltb, length};
ghost use Rattle.listing.specs.Listing.{room_for, list_answer, Within, list_left, program_answer, program_left};

use head_limits::Purpose;
use refusal::Rule;
use text::Manner;

// Whether a row may be too short for the listing of n bytes: 16 bytes for each and 64 more are enough. The row's length
// is divided, so that no product can wrap.
fn too_short(room: usize, n: usize) -> bool
    ensures { result ≡ ltb room (room_for n) }
{
    room < 64 || (room - 64) / 16 < n
}

// The listing of a file: the check, once. Where the row lent may be too short nothing is written.
pub fn list(input: &[u8], out: &mut [u8]) -> Option<usize>
    ensures answer { result ≡ list_answer input.now (length out.old) }
    ensures within { Within result (length out.old) }
    ensures left { out.new ≡ list_left input.now out.old }
{
    let n = input.len();
    if too_short(out.len(), n) {
        return None;
    }
    match image::check(input, n, Purpose::Read, Manner::Strict) {
        Err(r) => Some(lines::put_refusal(out, 0, r)),
        Ok(()) => Some(file_lines::put_file(out, input)),
    }
}

// What the program prints of its input: 19 first, else the listing.
pub fn program(input: &[u8], out: &mut [u8]) -> Option<usize>
    ensures answer { result ≡ program_answer input.now (length out.old) }
    ensures within { Within result (length out.old) }
    ensures left { out.new ≡ program_left input.now out.old }
{
    let small = input.len() <= 65536;
    if small {
        return list(input, out);
    }
    if too_short(out.len(), input.len()) {
        return None;
    }
    Some(lines::put_refusal(out, 0, refusal::of_file(Rule::InputSize, 0)))
}
