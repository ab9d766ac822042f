// The file block (document 01, "The file block", rows 2 to 7): byte order, revision, pointer room, count and the two
// terminators. Head has the definitions, HeadLaws what an image that passes the rows has. Stands on `head_limits`,
// `head_words`, `terminators`, `chars`, `word`, `refusal`. f is the image, the first `n` bytes of the lent buffer, or no
// more than its first 32.
// The rules in words: docs/FORMAT.md, "The file block".
#![tactic(auto)]

ghost use Rattle.std.specs.Prelude.{◌≡◌, ◌≤◌, length};
ghost use Rattle.head.specs.Head.{refused, head_answer, InWords};

use head_limits::Purpose;
use head_words::FileBlock;
use refusal::{Refusal, Rule};

// "A file is at most 67,108,864 bytes": `maximum` of the definitions.
pub const MAXIMUM: usize = 67108864;

pub fn refusing(rule: Rule, place: usize) -> Result<(), Refusal>
    ensures { result ≡ refused rule place }
{
    Err(refusal::of_file(rule, place))
}

// Rows 2 to 7 of an image that begins with the 32 bytes b and ends at `end`; and the block.
#[tactic(auto, unfolding(crate::specs::Head::head_of, crate::specs::Head::head_answer))]
pub fn head(b: &[u8], end: usize, purpose: Purpose) -> Result<FileBlock, Refusal>
    requires { 32 ≤ length b.now }
    ensures { (result ≡ head_answer purpose b.now end) × InWords result }
{
    if !head_limits::is_known(b) {
        return Err(refusal::of_file(Rule::FirstBytes, 0));
    }
    let x = head_words::file_block(b);
    if word::word2(b, x.high, 2) != 1 {
        return Err(refusal::of_file(Rule::Revision, 2));
    }
    if head_limits::is_bad_room(x.m) {
        return Err(refusal::of_file(Rule::PointerRoom, 4));
    }
    if head_limits::is_bad_count(purpose, x.m, x.n) {
        return Err(refusal::of_file(Rule::TraceCount, 6));
    }
    if !terminators::is_good(b, 8) {
        return Err(refusal::of_file(Rule::Terminator, 8));
    }
    if terminators::is_bad_lines(b) {
        return Err(refusal::of_file(Rule::Terminator, 11));
    }
    if end < 32 + x.m {
        return Err(refusal::of_file(Rule::RoomEnd, 4));
    }
    Ok(x)
}
