// What stands at the front of a text: its first bytes, and what is behind them; one byte, and what is behind it. Run has
// the runs of a kind, with what is behind them, OneByte the one byte. Stands on `chars`, `word`, `refusal`.
#![tactic(auto)]

ghost use Rattle.std.specs.Prelude.{◌≡◌, take, drop};
ghost use Rattle.word.specs.Part.{PartOf, RestOf};
ghost use Rattle.front_bytes.specs.OneByte.{has, past};

// The first n bytes, or all where there are fewer; and what is behind them. Both are the caller's own bytes, not a
// copy.
pub fn front(s: &[u8], n: usize) -> &[u8]
    ensures result_value { result.now ≡ take n s.now }
    ensures own { PartOf s.entry (0, n) result }
{
    if n <= s.len() { &s[..n] } else { s }
}

pub fn behind(s: &[u8], n: usize) -> &[u8]
    ensures result_value { result.now ≡ drop n s.now }
    ensures own { RestOf s.entry result }
{
    if n <= s.len() { &s[n..] } else { &s[s.len()..] }
}

// Whether the byte b stands at the front, and what is behind it, or all where it does not.
pub fn has(s: &[u8], b: u8) -> bool
    ensures { result ≡ has b s.now }
{
    !s.is_empty() && s[0] == b
}

pub fn past(s: &[u8], b: u8) -> &[u8]
    ensures result_value { result.now ≡ past b s.now }
    ensures own { RestOf s.entry result }
{
    if has(s, b) { behind(s, 1) } else { s }
}
