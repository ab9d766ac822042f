// Keyword letters in upper case (document 02, §11: the lenient reading "takes lower-case keyword letters as upper
// case"). Upper has the definitions. Stands on `chars`, and on `word` and `refusal` for laws alone.
// The rules in words: docs/FORMAT.md, "Strings".
#![tactic(auto)]

ghost use Rattle.std.specs.Prelude.{◌≡◌};
ghost use Rattle.chars.specs.Runs.{same};
ghost use Rattle.letters.specs.Upper.{loose_char, uppered};

// Whether a byte, in upper case, may stand in a keyword.
pub fn is_loose(b: u8) -> bool
    ensures { result ≡ loose_char b }
{
    matches!(b, 33..=126)
}

// Whether a text in upper case is another.
pub fn is_same_raised(p: &[u8], k: &[u8]) -> bool
    ensures { result ≡ same (uppered p.now) k.now }
{
    p.len() == k.len() && p.iter().zip(k).all(|(a, b)| a.to_ascii_uppercase() == *b)
}
