// The lines of a listing, stored one behind the other in a row that the caller lends (document 01, the end of "Worked
// values"). Lines and Digits have the definitions, Wrote what a stored piece leaves. Stands on `text`, `word`,
// `refusal`. A piece is stored from the place `at` on; its function answers the place behind it.
// The rules in words: docs/FORMAT.md, "Worked values".
#![tactic(auto)]

ghost use Rattle.std.specs.Prelude.{◌≡◌, [], ◌∷◌, ◌+◌, ◌≤◌, length};
ghost use Rattle.refusal.specs.Table.{number_of};
ghost use Rattle.digits.specs.Digits.{digits};
ghost use Rattle.lines.specs.Lines.{ended, whose, order, head_line, trace_line, refusal_line, space, spaced, label};
ghost use Rattle.lines.specs.Lines.{string_line};
ghost use Rattle.word.specs.Wrote.{Room, Wrote};

use refusal::{Part, Refusal, Rule};

fn put_byte(out: &mut [u8], at: usize, b: u8) -> usize
    requires { Room out.old at (b ∷ []) }
    ensures { Wrote out.old at (b ∷ []) result out.new }
{
    out[at] = b;
    at + 1
}

// A number and what ends its field.
fn put_ended(out: &mut [u8], at: usize, n: usize, b: u8) -> usize
    requires { Room out.old at (ended n b) }
    ensures { Wrote out.old at (ended n b) result out.new }
{
    let a = digits::put_digits(out, at, n as u64);
    put_byte(out, a, b)
}

// Whose a string or a refusal is: F for the file, else the trace.
fn put_whose(out: &mut [u8], at: usize, part: Part) -> usize
    requires { Room out.old at (whose part) }
    ensures { Wrote out.old at (whose part) result out.new }
{
    match part {
        Part::File => put_byte(out, at, b'F'),
        Part::Trace(k) => digits::put_digits(out, at, k as u64),
    }
}

fn put_order(out: &mut [u8], at: usize, high: bool) -> usize
    requires { Room out.old at (order high) }
    ensures { Wrote out.old at (order high) result out.new }
{
    if high {
        return store_bytes::put_bytes(out, at, b"SEG2\thigh\t");
    }
    store_bytes::put_bytes(out, at, b"SEG2\tlow\t")
}

// The first line: order, N, M.
pub fn put_head(out: &mut [u8], at: usize, high: bool, n: usize, m: usize) -> usize
    requires { Room out.old at (head_line high n m) }
    ensures { Wrote out.old at (head_line high n m) result out.new }
{
    let a = put_order(out, at, high);
    let b = put_ended(out, a, n, 9);
    put_ended(out, b, m, 10)
}

// A trace's line: trace, code, samples.
pub fn put_trace_line(out: &mut [u8], at: usize, k: u16, code: u8, s: usize) -> usize
    requires { Room out.old at (trace_line k code s) }
    ensures { Wrote out.old at (trace_line k code s) result out.new }
{
    let a = store_bytes::put_bytes(out, at, b"T\t");
    let b = put_ended(out, a, k as usize, 9);
    let c = put_ended(out, b, code as usize, 9);
    put_ended(out, c, s, 10)
}

// The number of a trace has at most 5 digits.
fn put_number(out: &mut [u8], at: usize, k: u16) -> usize
    requires { at + 5 ≤ length out.old }
    ensures { Wrote out.old at (digits k) result out.new × (length (digits k) ≤ 5) }
{
    digits::put_digits(out, at, k as u64)
}

// Whose a refusal is.
fn put_part(out: &mut [u8], at: usize, part: Part) -> usize
    requires { at + 5 ≤ length out.old }
    ensures { Wrote out.old at (whose part) result out.new × (length (whose part) ≤ 5) }
{
    match part {
        Part::File => put_byte(out, at, b'F'),
        Part::Trace(k) => put_number(out, at, k),
    }
}

// The place of a refusal has at most 20 digits.
fn put_place(out: &mut [u8], at: usize, place: usize) -> usize
    requires { at + 21 ≤ length out.old }
    ensures { Wrote out.old at (ended place 10) result out.new
        × (length (ended place 10) ≤ 21) }
{
    put_ended(out, at, place, 10)
}

// The number of a rule has at most 2 digits.
fn put_rule(out: &mut [u8], at: usize, rule: Rule) -> usize
    requires { at + 3 ≤ length out.old }
    ensures { Wrote out.old at (ended (number_of rule) 9) result out.new
        × (length (ended (number_of rule) 9) ≤ 3) }
{
    put_ended(out, at, refusal::number(rule) as usize, 9)
}

// A refusal's line: number, part, place.
pub fn put_refusal(out: &mut [u8], at: usize, r: Refusal) -> usize
    requires { at + 64 ≤ length out.old }
    ensures { Wrote out.old at (refusal_line r) result out.new × (result ≤ at + 64) }
{
    let a = store_bytes::put_bytes(out, at, b"R\t");
    let b = put_rule(out, a, r.rule);
    let c = put_part(out, b, r.part);
    let d = put_byte(out, c, 9);
    put_place(out, d, r.place)
}

// "A tab in a value prints as a space".
fn spaced_byte(b: u8) -> u8
    ensures { result ≡ space b }
{
    if b == 9 {
        return 32;
    }
    b
}

// A value, each tab as a space.
fn put_spaced(out: &mut [u8], at: usize, v: &[u8]) -> usize
    requires { Room out.old at (spaced v.now) }
    ensures { Wrote out.old at (spaced v.now) result out.new }
{
    for i in 0..v.len() {
        out[at + i] = spaced_byte(v[i]);
    }
    at + v.len()
}

// What stands before a string's value: part and keyword.
fn put_label(out: &mut [u8], at: usize, part: Part, key: &[u8]) -> usize
    requires { Room out.old at (label part key.now) }
    ensures { Wrote out.old at (label part key.now) result out.new }
{
    let a = store_bytes::put_bytes(out, at, b"S\t");
    let b = put_whose(out, a, part);
    let c = put_byte(out, b, 9);
    let d = store_bytes::put_bytes(out, c, key);
    put_byte(out, d, 9)
}

// A string's line, or one of a NOTE's.
pub fn put_line(out: &mut [u8], at: usize, part: Part, key: &[u8], v: &[u8]) -> usize
    requires { Room out.old at (string_line part key.now v.now) }
    ensures { Wrote out.old at (string_line part key.now v.now) result
        out.new }
{
    let a = put_label(out, at, part, key);
    let b = put_spaced(out, a, v);
    put_byte(out, b, 10)
}
