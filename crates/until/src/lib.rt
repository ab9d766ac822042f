// Where a walk along the strings of an area ends (document 02, §5): what a string is to a question, and where it stands.
// Until has the definitions, those of the walk too, which is `string_walk`; Turns has a law for each turn of its loop.
// Stands on `strings`, `key_order`, `chars`. An area is the bytes of a file from place a to place e; t is the string
// terminator.
// The rules in words: docs/FORMAT.md, "One trace, quickly".
#![tactic(auto)]

ghost use Rattle.std.specs.Prelude.{◌≡◌, ◌≤◌, length};
ghost use Rattle.strings.specs.Passed.{seen_place, Lies};
ghost use Rattle.until.specs.Until.{look_of};

use chars::Kind;
use refusal::Refusal;
use strings::Place;

// What is asked: the string with a keyword, the i-th counted from 0, or how many there are.
#[derive(Clone, Copy)]
pub enum Ask {
    Keyword,
    Index(usize),
    All,
}

// Behind a string: it is the asked one, there is none, or the walk goes on.
#[derive(Clone, Copy)]
pub enum Turn {
    Here,
    Gone,
    On,
}

// Where a walk ended: at the asked string; or past so many, where there is none.
#[derive(Clone, Copy)]
pub enum Walked {
    At(Place),
    Over(usize),
}

// What a string with the keyword k, the j-th counted from 0, is to the question.
pub fn look(ask: Ask, key: &[u8], j: usize, k: &[u8]) -> Turn
    ensures { result ≡ look_of ask key.now j k.now }
{
    match ask {
        Ask::Keyword => {
            if chars::is_same(k, key) {
                return Turn::Here;
            }
            if key_order::is_before(key, k) {
                return Turn::Gone; // it is passed
            }
            Turn::On
        }
        Ask::Index(i) => {
            if j == i {
                return Turn::Here;
            }
            Turn::On
        }
        Ask::All => Turn::On,
    }
}

// Where the string of `size` bytes at `at` stands, its keyword up to `gap`.
pub fn place(f: &[u8], e: usize, t: &[u8], at: usize, gap: usize, size: usize) -> Place
    requires { (e ≤ length f.now) × Lies (length t.now) e at gap size }
    ensures { result ≡ seen_place t.now f.now at gap size }
{
    let end = at + (size - t.len());
    Place {
        key: at + 2,
        gap,
        value: gap + chars::run(Kind::Blank, &f[gap..end]),
        end,
    }
}
