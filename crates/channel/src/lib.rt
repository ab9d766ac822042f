// Channel numbers (document 02, §7): a count in a value, "a number by document 01, 1 to 32,767, without point or E", and
// the rule that all traces of a file have one or none. Count has the count in two views, Channel the rule. Stands on
// `decimal`, `digits`, `chars`.
// The rules in words: docs/FORMAT.md, "Channel numbers".
#![tactic(auto)]

ghost use Rattle.std.specs.Prelude.{◌≡◌};
ghost use Rattle.channel.specs.Count.{count_in};
ghost use Rattle.channel.specs.Channel.{bad_channel};

use chars::Kind;

// The count that a text is, and 0 where it is none: its digits are asked before its value, so that no value is too
// large to be worked out.
pub fn count(text: &[u8]) -> u32
    ensures { result ≡ count_in text.now }
{
    if 18 < text.len() {
        return 0;
    }
    if !chars::all(Kind::Digit, text) {
        return 0;
    }
    let n = digits::value(0, text);
    if 32767 < n {
        return 0;
    }
    n as u32
}

// Whether a trace breaks the rule: `with` tells whether the file's traces have the string, `has` whether this one has
// it, and `value` is its value here.
pub fn is_bad(with: bool, has: bool, value: &[u8]) -> bool
    ensures { result ≡ bad_channel with has value.now }
{
    if !has {
        return with;
    }
    if !with {
        return true;
    }
    count(value) == 0
}
