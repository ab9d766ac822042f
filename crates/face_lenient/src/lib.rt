// The answers of the lenient reading as they cross to another language (document 02, §11): each is the answer of the
// question without `lenient` in its name, and beside it the strict check's own row, "On other files it tells the first
// strict refusal beside its own answer". FaceLenient has the definitions; include/seg2.h declares the structs.
// Stands on `face` and `face_values`.
// The rules in words: docs/FORMAT.md, "Older recorders: a lenient reading".
#![tactic(auto)]

ghost use Rattle.std.specs.Prelude.{◌≡◌};
ghost use Rattle.face_lenient.specs.FaceLenient.{lenient_verdict, lenient_file, lenient_trace, lenient_count};
ghost use Rattle.face_lenient.specs.FaceLenient.{lenient_string, lenient_keyword, lenient_value, lenient_number};
ghost use Rattle.face_lenient.specs.FaceLenient.{lenient_double, lenient_location};

use block::TraceBlock;
use decimal_parts::Decimal;
use face::{Seg2Count, Seg2File, Seg2Trace, Seg2Verdict};
use face_values::{Seg2Double, Seg2Keyword, Seg2Location, Seg2Number, Seg2String, Seg2Value};
use head_words::FileBlock;
use location::Coordinates;
use refusal::Refusal;
use strings::Place;

#[repr(C)]
#[derive(Clone, Copy)]
pub struct Seg2LenientVerdict {
    pub answer: Seg2Verdict,
    pub strict: Seg2Verdict,
}

#[repr(C)]
#[derive(Clone, Copy)]
pub struct Seg2LenientFile {
    pub answer: Seg2File,
    pub strict: Seg2Verdict,
}

#[repr(C)]
#[derive(Clone, Copy)]
pub struct Seg2LenientTrace {
    pub answer: Seg2Trace,
    pub strict: Seg2Verdict,
}

#[repr(C)]
#[derive(Clone, Copy)]
pub struct Seg2LenientCount {
    pub answer: Seg2Count,
    pub strict: Seg2Verdict,
}

#[repr(C)]
#[derive(Clone, Copy)]
pub struct Seg2LenientString {
    pub answer: Seg2String,
    pub strict: Seg2Verdict,
}

#[repr(C)]
#[derive(Clone, Copy)]
pub struct Seg2LenientKeyword {
    pub answer: Seg2Keyword,
    pub strict: Seg2Verdict,
}

#[repr(C)]
#[derive(Clone, Copy)]
pub struct Seg2LenientValue {
    pub answer: Seg2Value,
    pub strict: Seg2Verdict,
}

#[repr(C)]
#[derive(Clone, Copy)]
pub struct Seg2LenientNumber {
    pub answer: Seg2Number,
    pub strict: Seg2Verdict,
}

#[repr(C)]
#[derive(Clone, Copy)]
pub struct Seg2LenientDouble {
    pub answer: Seg2Double,
    pub strict: Seg2Verdict,
}

#[repr(C)]
#[derive(Clone, Copy)]
pub struct Seg2LenientLocation {
    pub answer: Seg2Location,
    pub strict: Seg2Verdict,
}

// ---- answers as they cross to another language, the strict check's verdict beside each

pub fn verdict_beside(a: Result<(), Refusal>, strict: Result<(), Refusal>) -> Seg2LenientVerdict
    ensures { result ≡ lenient_verdict a strict }
{
    Seg2LenientVerdict {
        answer: face::told(a),
        strict: face::told(strict),
    }
}

pub fn file_beside(a: Result<FileBlock, Refusal>, strict: Result<(), Refusal>) -> Seg2LenientFile
    ensures { result ≡ lenient_file a strict }
{
    Seg2LenientFile {
        answer: face::file_told(a),
        strict: face::told(strict),
    }
}

pub fn trace_beside(a: Result<TraceBlock, Refusal>, strict: Result<(), Refusal>) -> Seg2LenientTrace
    ensures { result ≡ lenient_trace a strict }
{
    Seg2LenientTrace {
        answer: face::trace_told(a),
        strict: face::told(strict),
    }
}

pub fn count_beside(a: Result<usize, Refusal>, strict: Result<(), Refusal>) -> Seg2LenientCount
    ensures { result ≡ lenient_count a strict }
{
    Seg2LenientCount {
        answer: face::count_told(a),
        strict: face::told(strict),
    }
}

pub fn string_beside(
    a: Result<Option<Place>, Refusal>,
    strict: Result<(), Refusal>,
) -> Seg2LenientString
    ensures { result ≡ lenient_string a strict }
{
    Seg2LenientString {
        answer: face_strings::string_told(a),
        strict: face::told(strict),
    }
}

pub fn keyword_beside(a: Result<bool, Refusal>, strict: Result<(), Refusal>) -> Seg2LenientKeyword
    ensures { result ≡ lenient_keyword a strict }
{
    Seg2LenientKeyword {
        answer: face_strings::keyword_told(a),
        strict: face::told(strict),
    }
}

pub fn value_beside(
    a: Result<Option<Place>, Refusal>,
    strict: Result<(), Refusal>,
) -> Seg2LenientValue
    ensures { result ≡ lenient_value a strict }
{
    Seg2LenientValue {
        answer: face_strings::value_told(a),
        strict: face::told(strict),
    }
}

pub fn number_beside(a: Result<Decimal, Refusal>, strict: Result<(), Refusal>) -> Seg2LenientNumber
    ensures { result ≡ lenient_number a strict }
{
    Seg2LenientNumber {
        answer: face_values::number_told(a),
        strict: face::told(strict),
    }
}

pub fn double_beside(a: Result<f64, Refusal>, strict: Result<(), Refusal>) -> Seg2LenientDouble
    ensures { result ≡ lenient_double a strict }
{
    Seg2LenientDouble {
        answer: face_values::double_told(a),
        strict: face::told(strict),
    }
}

pub fn location_beside(
    a: Result<Coordinates, Refusal>,
    strict: Result<(), Refusal>,
) -> Seg2LenientLocation
    ensures { result ≡ lenient_location a strict }
{
    Seg2LenientLocation {
        answer: face_values::location_told(a),
        strict: face::told(strict),
    }
}
