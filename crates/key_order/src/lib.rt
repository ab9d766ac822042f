// The order of keywords (document 01, "Strings"; document 02, §1): byte order, NOTE behind all others, and the two that may
// stand several times running. Definitions in Order. Stands on `chars`, and on `word` and `refusal` for laws alone.
// The rules in words: docs/FORMAT.md, "Strings".
#![tactic(auto)]

ghost use Rattle.std.specs.Prelude.{◌≡◌};
ghost use Rattle.chars.specs.Chars.{note};
ghost use Rattle.chars.specs.Runs.{same};
ghost use Rattle.key_order.specs.Order.{before, less, repeats, rises};

pub fn is_note(k: &[u8]) -> bool
    ensures { result ≡ same k.now note }
{
    chars::is_same(k, b"NOTE")
}

// Byte order. Not by `<`, which takes a third more time for what two keywords have in common.
fn is_less(p: &[u8], k: &[u8]) -> bool
    ensures { result ≡ less p.now k.now }
{
    for i in 0..p.len().min(k.len()) {
        if p[i] != k[i] {
            return p[i] < k[i];
        }
    }
    p.len() < k.len()
}

// Whether the keyword p comes before the keyword k: byte order, and NOTE after all others.
#[tactic(auto, unfolding(crate::specs::Order::before))]
pub fn is_before(p: &[u8], k: &[u8]) -> bool
    ensures { result ≡ before p.now k.now }
{
    !is_note(p) && (is_note(k) || is_less(p, k))
}

// Whether the keyword k may stand several times running.
#[tactic(auto, unfolding(crate::specs::Order::repeats))]
fn is_repeating(k: &[u8]) -> bool
    ensures { result ≡ repeats k.now }
{
    chars::is_same(k, b"RECEIVER_GEOMETRY") || chars::is_same(k, b"SOURCE_GEOMETRY")
}

// Whether the keyword k may follow the keyword p.
#[tactic(auto, unfolding(crate::specs::Order::rises))]
pub fn rising(p: &[u8], k: &[u8]) -> bool
    ensures { result ≡ rises p.now k.now }
{
    is_before(p, k) || (chars::is_same(p, k) && is_repeating(k))
}
