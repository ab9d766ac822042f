// Row 1 (document 01): the length that is given beside a buffer. FileLength has the definition and its laws. Stands on
// `head` for the maximum, and on `word` for laws alone.
// The rules in words: docs/FORMAT.md, "Refusal numbers, in order of checking".
#![tactic(auto)]

ghost use Rattle.std.specs.Prelude.{◌≡◌};
ghost use Rattle.file_length.specs.FileLength.{bad_length};

// Row 1 of a buffer of so many bytes and the length given beside it.
pub fn is_bad_length(size: usize, n: usize) -> bool
    ensures { result ≡ bad_length size n }
{
    (n < 32) | ((head::MAXIMUM < n) | (size < n))
}
