// The strict check's own verdict, which the lenient reading tells beside every answer (document 02, §11). Stands on
// `image`.
// The rules in words: docs/FORMAT.md, "Older recorders: a lenient reading".
#![tactic(auto)]

ghost use Rattle.std.specs.Prelude.{◌≡◌};
ghost use Rattle.text.specs.declared.Manner.TheVariants.{Strict};
ghost use Rattle.head_limits.specs.declared.Purpose.TheVariants.{Read};
ghost use Rattle.image.specs.Image.{check_of};

use head_limits::Purpose;
use refusal::Refusal;
use text::Manner;

// It is made before the question: then no answer is kept while the file is checked.
pub fn strictly(buffer: &[u8], n: usize) -> Result<(), Refusal>
    ensures { result ≡ check_of Strict Read buffer.now n }
{
    image::check(buffer, n, Purpose::Read, Manner::Strict)
}
