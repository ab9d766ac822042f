// Keywords (document 01, "Strings"; document 02, §11): what they count as, what they may follow, in the manner of
// reading. Manner has all definitions that the manner decides, that of their characters too, which `key_chars` runs
// along. Stands on `key_order`, `letters`, `chars`.
// The rules in words: docs/FORMAT.md, "Strings".
#![tactic(auto)]

ghost use Rattle.std.specs.Prelude.{◌≡◌};
ghost use Rattle.chars.specs.Chars.{note};
ghost use Rattle.chars.specs.Runs.{same};
ghost use Rattle.text.specs.Manner.{open_end, named, follows, asks_channels};

// The manner of reading strings: `specs/Manner.antt` has what it decides. Strict is document 01's, Lenient that of
// document 02, §11.
#[derive(Clone, Copy)]
pub enum Manner {
    Strict,
    Lenient,
}

// Whether the keyword k counts as the asked one, which has then as many bytes in any manner.
pub fn is_named(k: &[u8], key: &[u8], how: Manner) -> bool
    ensures { result ≡ same (named how k.now) key.now }
{
    if k.len() != key.len() {
        return false;
    }
    match how {
        Manner::Strict => chars::is_same(k, key),
        Manner::Lenient => letters::is_same_raised(k, key),
    }
}

// Whether it counts as NOTE.
pub fn is_named_note(k: &[u8], how: Manner) -> bool
    ensures { result ≡ same (named how k.now) note }
{
    is_named(k, b"NOTE", how)
}

// Whether a list of strings may end where no byte is left.
pub fn open_end(how: Manner) -> bool
    ensures { result ≡ open_end how }
{
    match how {
        Manner::Strict => false,
        Manner::Lenient => true,
    }
}

// Whether channel numbers stand in all traces or in none.
pub fn asks_channels(how: Manner) -> bool
    ensures { result ≡ asks_channels how }
{
    match how {
        Manner::Strict => true,
        Manner::Lenient => false,
    }
}

// Whether a keyword k may follow the keyword p.
pub fn following(p: &[u8], k: &[u8], how: Manner) -> bool
    ensures { result ≡ follows how p.now k.now }
{
    // Most keywords come later, and that is settled without a call, in any manner.
    if key_order::is_before(p, k) {
        return true;
    }
    match how {
        Manner::Strict => key_order::rising(p, k),
        Manner::Lenient => true,
    }
}
