// The listing, exported for a host's tests: the face does not show it. Nothing is asked of a caller, as nothing checks
// a host's.
#![tactic(auto)]

ghost use Rattle.std.specs.Prelude.{◌≡◌, length};
ghost use Rattle.listing.specs.Listing.{list_answer, list_left, program_answer, program_left};
ghost use Rattle.probe.specs.Listed.{length_told};

// An answer as a host takes it: no enum crosses to it by value.
fn told(answer: Option<usize>) -> usize
    ensures { result ≡ length_told answer }
{
    answer.unwrap_or(usize::MAX)
}

// How many bytes the listing of a file has, stored from the start of the row; or the greatest number, which no listing
// has, where the row may be too short for it: 16 bytes for each of the input's and 64 more are enough.
#[unsafe(no_mangle)]
pub extern "C" fn probe_list(input: &[u8], out: &mut [u8]) -> usize
    ensures answer { result ≡ length_told (list_answer input.now (length out.old)) }
    ensures left { out.new ≡ list_left input.now out.old }
{
    told(listing::list(input, out))
}

// The same of what the listing program prints, with row 19.
#[unsafe(no_mangle)]
pub extern "C" fn probe_program(input: &[u8], out: &mut [u8]) -> usize
    ensures answer { result ≡ length_told (program_answer input.now (length out.old)) }
    ensures left { out.new ≡ program_left input.now out.old }
{
    told(listing::program(input, out))
}
