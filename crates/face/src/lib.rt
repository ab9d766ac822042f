// The answers as they cross to another language: C structs of numbers, each beginning with the refusal's number in
// document 01's table (0: none), its part (-1 for the file, else the trace) and its place. Here those on files and
// lengths; `face_values` has those on strings and their values. Face has the definitions; include/seg2.h declares the
// structs, with the same fields in the same order, to which a host test holds both.
// Stands on `reader` and what it stands on.
// The rules in words: docs/FORMAT.md, "Refusal numbers, in order of checking".
#![tactic(auto)]

ghost use Rattle.std.specs.Prelude.{◌≡◌};
ghost use Rattle.face.specs.Face.{flag, as_verdict, as_file, as_trace, as_count, as_length};

use block::TraceBlock;
use head_words::FileBlock;
use refusal::Refusal;

#[repr(C)]
#[derive(Clone, Copy)]
pub struct Seg2Verdict {
    pub number: u32,
    pub part: i32,
    pub place: usize,
}

// The byte order (0 low first, 1 high first), M, N, and the lengths of the string and the line terminator, whose
// characters stand in bytes 9 and 12 on.
#[repr(C)]
#[derive(Clone, Copy)]
pub struct Seg2File {
    pub number: u32,
    pub part: i32,
    pub place: usize,
    pub order: u32,
    pub pointer_room: usize,
    pub trace_count: usize,
    pub string_terminator_size: usize,
    pub line_terminator_size: usize,
}

// Where the block starts, B, D, S and the format code.
#[repr(C)]
#[derive(Clone, Copy)]
pub struct Seg2Trace {
    pub number: u32,
    pub part: i32,
    pub place: usize,
    pub start: usize,
    pub block_size: usize,
    pub data_size: usize,
    pub sample_count: usize,
    pub format_code: u32,
}

#[repr(C)]
#[derive(Clone, Copy)]
pub struct Seg2Count {
    pub number: u32,
    pub part: i32,
    pub place: usize,
    pub count: usize,
}

// The image's new length, or the length of the text that a number was written as.
#[repr(C)]
#[derive(Clone, Copy)]
pub struct Seg2Length {
    pub number: u32,
    pub part: i32,
    pub place: usize,
    pub length: usize,
}

// A bool as a number.
pub fn one_if(b: bool) -> u32
    ensures { result ≡ flag b }
{
    if b { 1 } else { 0 }
}

// ---- answers as they cross to another language

pub fn told(v: Result<(), Refusal>) -> Seg2Verdict
    ensures { result ≡ as_verdict v }
{
    match v {
        Ok(()) => Seg2Verdict {
            number: 0,
            part: -1,
            place: 0,
        },
        Err(r) => {
            let rule = r.rule;
            let part = r.part;
            Seg2Verdict {
                number: refusal::number(rule),
                part: refusal::part_number(part),
                place: r.place,
            }
        }
    }
}

pub fn file_told(a: Result<FileBlock, Refusal>) -> Seg2File
    ensures { result ≡ as_file a }
{
    match a {
        Ok(f) => Seg2File {
            number: 0,
            part: -1,
            place: 0,
            order: one_if(f.high),
            pointer_room: f.m,
            trace_count: f.n,
            string_terminator_size: f.strings,
            line_terminator_size: f.lines,
        },
        Err(r) => {
            let t = told(Err(r));
            Seg2File {
                number: t.number,
                part: t.part,
                place: t.place,
                order: 0,
                pointer_room: 0,
                trace_count: 0,
                string_terminator_size: 0,
                line_terminator_size: 0,
            }
        }
    }
}

pub fn trace_told(a: Result<TraceBlock, Refusal>) -> Seg2Trace
    ensures { result ≡ as_trace a }
{
    match a {
        Ok(t) => Seg2Trace {
            number: 0,
            part: -1,
            place: 0,
            start: t.p,
            block_size: t.b,
            data_size: t.d,
            sample_count: t.s,
            format_code: t.code as u32,
        },
        Err(r) => {
            let t = told(Err(r));
            Seg2Trace {
                number: t.number,
                part: t.part,
                place: t.place,
                start: 0,
                block_size: 0,
                data_size: 0,
                sample_count: 0,
                format_code: 0,
            }
        }
    }
}

pub fn count_told(a: Result<usize, Refusal>) -> Seg2Count
    ensures { result ≡ as_count a }
{
    match a {
        Ok(n) => Seg2Count {
            number: 0,
            part: -1,
            place: 0,
            count: n,
        },
        Err(r) => {
            let t = told(Err(r));
            Seg2Count {
                number: t.number,
                part: t.part,
                place: t.place,
                count: 0,
            }
        }
    }
}

pub fn length_told(a: Result<usize, Refusal>) -> Seg2Length
    ensures { result ≡ as_length a }
{
    match a {
        Ok(n) => Seg2Length {
            number: 0,
            part: -1,
            place: 0,
            length: n,
        },
        Err(r) => {
            let t = told(Err(r));
            Seg2Length {
                number: t.number,
                part: t.part,
                place: t.place,
                length: 0,
            }
        }
    }
}
