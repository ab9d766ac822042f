// The tests of rows 2, 4 and 5 of the file block: its first bytes, pointer room and count, each by itself (document 01,
// "The file block"); and what a file is opened for, which row 5 asks. HeadLimits has the definitions. Stands on nothing.
// The rules in words: docs/FORMAT.md, "The file block".
#![tactic(auto)]

ghost use Rattle.std.specs.Prelude.{◌≡◌, ◌≤◌, length};
ghost use Rattle.head_limits.specs.HeadLimits.{known, may_be_empty, bad_room, bad_count};

// What a file is opened for: to be read, or to be given a trace. An addition also takes an image with N=0.
#[derive(Clone, Copy)]
pub enum Purpose {
    Read,
    Grow,
}

pub fn is_known(f: &[u8]) -> bool
    requires { 2 ≤ length f.now }
    ensures { result ≡ known f.now }
{
    ((f[0] == 85) & (f[1] == 58)) | ((f[0] == 58) & (f[1] == 85))
}

pub fn is_bad_room(m: usize) -> bool
    ensures { result ≡ bad_room m }
{
    (m < 4) | (m % 4 != 0)
}

fn may_be_empty(purpose: Purpose) -> bool
    ensures { result ≡ may_be_empty purpose }
{
    matches!(purpose, Purpose::Grow)
}

pub fn is_bad_count(purpose: Purpose, m: usize, n: usize) -> bool
    ensures { result ≡ bad_count purpose m n }
{
    ((n == 0) & !may_be_empty(purpose)) | (m / 4 < n)
}
