// The face for other languages: thin functions on numbers and byte slices, each with a whole promise and no `requires`.
// include/seg2.h declares them. What is exported has to stand here; the work, with the same promise, is done by the
// crates `call_*`, so that a wrong program is tried in a small crate. Strings are read in the strict manner, but for the
// functions with `lenient` in their name.
// The rules in words: docs/FORMAT.md, "Refusal numbers, in order of checking".
#![tactic(auto)]

ghost use Rattle.std.specs.Prelude.{◌≡◌, length};
ghost use Rattle.text.specs.declared.Manner.TheVariants.{Strict, Lenient};
ghost use Rattle.head_limits.specs.declared.Purpose.TheVariants.{Read};
ghost use Rattle.decimal.specs.Number.{number_in};
ghost use Rattle.numeral.specs.Numeral.{numeral_answer, numeral_left};
ghost use Rattle.image.specs.Image.{check_of};
ghost use Rattle.reader.specs.Questions.{file_answer, trace_answer, count_answer, nth_answer, find_answer, keyword_answer};
ghost use Rattle.reader.specs.Questions.{number_answer, double_answer, location_answer, integers_answer, integers_left};
ghost use Rattle.reader.specs.Questions.{bits_answer, patterns_left, classes_left};
ghost use Rattle.reader.specs.Questions.{strings_answer, strings_left};
ghost use Rattle.one_trace.specs.Alone.{block_alone};
ghost use Rattle.quick.specs.Quick.{quick_count, quick_nth, quick_strings, quick_strings_left, quick_find, quick_keyword};
ghost use Rattle.quick.specs.Quick.{quick_number, quick_double, quick_location, quick_integers, quick_integers_left};
ghost use Rattle.quick.specs.Quick.{quick_bits, quick_patterns_left, quick_classes_left};
ghost use Rattle.layout.specs.Layout.{integers_trace, patterns_trace};
ghost use Rattle.start.specs.Start.{start_answer, start_needs, start_left};
ghost use Rattle.writer.specs.Answers.{add_answer, add_needs, add_left};
ghost use Rattle.face.specs.Face.{as_verdict, as_file, as_trace, as_count, as_length};
ghost use Rattle.face_values.specs.FaceValues.{as_string, as_keyword, as_value, as_number, as_double, as_location, as_given};
ghost use Rattle.face_lenient.specs.FaceLenient.{lenient_verdict, lenient_file, lenient_trace, lenient_count};
ghost use Rattle.face_lenient.specs.FaceLenient.{lenient_string, lenient_keyword, lenient_value, lenient_number};
ghost use Rattle.face_lenient.specs.FaceLenient.{lenient_double, lenient_location};

use face::{Seg2Count, Seg2File, Seg2Length, Seg2Trace, Seg2Verdict};
use face_lenient::{
    Seg2LenientCount, Seg2LenientDouble, Seg2LenientFile, Seg2LenientKeyword, Seg2LenientLocation,
    Seg2LenientNumber, Seg2LenientString, Seg2LenientTrace, Seg2LenientValue, Seg2LenientVerdict,
};
use face_values::{Seg2Double, Seg2Keyword, Seg2Location, Seg2Number, Seg2String, Seg2Value};

// ---- questions

// Whether the first `n` bytes of the buffer are a file that keeps the rules; if not, the first row of the table that it
// meets.
#[unsafe(no_mangle)]
pub extern "C" fn seg2_check(buffer: &[u8], n: usize) -> Seg2Verdict
    ensures { result ≡ as_verdict (check_of Strict Read buffer.now n) }
{
    call_blocks::check(buffer, n)
}

// The file block.
#[unsafe(no_mangle)]
pub extern "C" fn seg2_file_block(buffer: &[u8], n: usize) -> Seg2File
    ensures { result ≡ as_file (file_answer Strict buffer.now n) }
{
    call_blocks::file_block(buffer, n)
}

// A trace's block.
#[unsafe(no_mangle)]
pub extern "C" fn seg2_trace_block(buffer: &[u8], n: usize, trace: i32) -> Seg2Trace
    ensures { result ≡ as_trace (trace_answer Strict buffer.now n trace) }
{
    call_blocks::trace_block(buffer, n, trace)
}

// How many strings the file (part -1) or a trace has.
#[unsafe(no_mangle)]
pub extern "C" fn seg2_string_count(buffer: &[u8], n: usize, part: i32) -> Seg2Count
    ensures { result ≡ as_count (count_answer Strict buffer.now n part) }
{
    call_blocks::string_count(buffer, n, part)
}

// The string with an index, counted from 0.
#[unsafe(no_mangle)]
pub extern "C" fn seg2_string(buffer: &[u8], n: usize, part: i32, index: usize) -> Seg2String
    ensures { result ≡ as_string (nth_answer Strict buffer.now n part index) }
{
    call_strings::string(buffer, n, part, index)
}

// All strings of the file or a trace, into a row of four numbers each: where the keyword starts and its length, where the
// value starts and its length.
#[unsafe(no_mangle)]
pub extern "C" fn seg2_strings(buffer: &[u8], n: usize, part: i32, row: &mut [usize]) -> Seg2Verdict
    ensures answer { result ≡ as_verdict (strings_answer Strict buffer.now n part
        (length row.old)) }
    ensures row { row.new ≡ strings_left Strict buffer.now n part row.old }
{
    call_rows::strings(buffer, n, part, row)
}

// Whether a keyword is there: one of the two calls of a keyword question.
#[unsafe(no_mangle)]
pub extern "C" fn seg2_keyword(buffer: &[u8], n: usize, part: i32, key: &[u8]) -> Seg2Keyword
    ensures { result ≡ as_keyword (keyword_answer Strict buffer.now n part key.now) }
{
    call_strings::keyword(buffer, n, part, key)
}

// A keyword's value: the other one.
#[unsafe(no_mangle)]
pub extern "C" fn seg2_value(buffer: &[u8], n: usize, part: i32, key: &[u8]) -> Seg2Value
    ensures { result ≡ as_value (find_answer Strict buffer.now n part key.now) }
{
    call_strings::value(buffer, n, part, key)
}

// The number that a keyword's value is.
#[unsafe(no_mangle)]
pub extern "C" fn seg2_number(buffer: &[u8], n: usize, part: i32, key: &[u8]) -> Seg2Number
    ensures { result ≡ as_number (number_answer Strict buffer.now n part key.now) }
{
    call_values::number(buffer, n, part, key)
}

// The double that a keyword's value is.
#[unsafe(no_mangle)]
pub extern "C" fn seg2_double(buffer: &[u8], n: usize, part: i32, key: &[u8]) -> Seg2Double
    ensures { result ≡ as_double (double_answer Strict buffer.now n part key.now) }
{
    call_values::double(buffer, n, part, key)
}

// The location that a keyword's value is.
#[unsafe(no_mangle)]
pub extern "C" fn seg2_location(buffer: &[u8], n: usize, part: i32, key: &[u8]) -> Seg2Location
    ensures { result ≡ as_location (location_answer Strict buffer.now n part key.now) }
{
    call_values::location(buffer, n, part, key)
}

// The samples of a trace of code 1 to 3, into a row of as many.
#[unsafe(no_mangle)]
pub extern "C" fn seg2_integers(buffer: &[u8], n: usize, trace: i32, row: &mut [i32]) -> Seg2Verdict
    ensures answer { result ≡ as_verdict (integers_answer Strict buffer.now n trace
        (length row.old)) }
    ensures row { row.new ≡ integers_left Strict buffer.now n trace row.old }
{
    call_samples::integers(buffer, n, trace, row)
}

// The bit patterns and the classes of the samples of a trace of code 4 or 5, into two rows of as many.
#[unsafe(no_mangle)]
pub extern "C" fn seg2_bits(
    buffer: &[u8],
    n: usize,
    trace: i32,
    row: &mut [u64],
    classes: &mut [u8],
) -> Seg2Verdict
    ensures answer { result ≡ as_verdict (bits_answer Strict buffer.now n trace (length row.old)
        (length classes.old)) }
    ensures row { row.new ≡ patterns_left Strict buffer.now n trace row.old
        classes.old }
    ensures classes { classes.new
        ≡ classes_left Strict buffer.now n trace row.old classes.old }
{
    call_samples::bits(buffer, n, trace, row, classes)
}

// ---- one trace, quickly: the rest of the file is not looked at

// Its block.
#[unsafe(no_mangle)]
pub extern "C" fn seg2_quick_trace_block(buffer: &[u8], n: usize, trace: i32) -> Seg2Trace
    ensures { result ≡ as_trace (block_alone buffer.now n trace) }
{
    call_quick::trace_block(buffer, n, trace)
}

// How many strings it has.
#[unsafe(no_mangle)]
pub extern "C" fn seg2_quick_string_count(buffer: &[u8], n: usize, trace: i32) -> Seg2Count
    ensures { result ≡ as_count (quick_count buffer.now n trace) }
{
    call_quick::string_count(buffer, n, trace)
}

// Its string with an index, counted from 0.
#[unsafe(no_mangle)]
pub extern "C" fn seg2_quick_string(buffer: &[u8], n: usize, trace: i32, index: usize) -> Seg2String
    ensures { result ≡ as_string (quick_nth buffer.now n trace index) }
{
    call_quick::string(buffer, n, trace, index)
}

// All its strings, into a row of four numbers each.
#[unsafe(no_mangle)]
pub extern "C" fn seg2_quick_strings(
    buffer: &[u8],
    n: usize,
    trace: i32,
    row: &mut [usize],
) -> Seg2Verdict
    ensures answer { result ≡ as_verdict (quick_strings buffer.now n trace (length row.old)) }
    ensures row { row.new ≡ quick_strings_left buffer.now n trace row.old }
{
    call_rows::quick_strings(buffer, n, trace, row)
}

// Whether a trace has a keyword: one of the two calls.
#[unsafe(no_mangle)]
pub extern "C" fn seg2_quick_keyword(buffer: &[u8], n: usize, trace: i32, key: &[u8]) -> Seg2Keyword
    ensures { result ≡ as_keyword (quick_keyword buffer.now n trace key.now) }
{
    call_quick::keyword(buffer, n, trace, key)
}

// Its value: the other one.
#[unsafe(no_mangle)]
pub extern "C" fn seg2_quick_value(buffer: &[u8], n: usize, trace: i32, key: &[u8]) -> Seg2Value
    ensures { result ≡ as_value (quick_find buffer.now n trace key.now) }
{
    call_quick::value(buffer, n, trace, key)
}

// The number that its keyword's value is.
#[unsafe(no_mangle)]
pub extern "C" fn seg2_quick_number(buffer: &[u8], n: usize, trace: i32, key: &[u8]) -> Seg2Number
    ensures { result ≡ as_number (quick_number buffer.now n trace key.now) }
{
    call_quick_values::number(buffer, n, trace, key)
}

// The double that its keyword's value is.
#[unsafe(no_mangle)]
pub extern "C" fn seg2_quick_double(buffer: &[u8], n: usize, trace: i32, key: &[u8]) -> Seg2Double
    ensures { result ≡ as_double (quick_double buffer.now n trace key.now) }
{
    call_quick_values::double(buffer, n, trace, key)
}

// The location that its keyword's value is.
#[unsafe(no_mangle)]
pub extern "C" fn seg2_quick_location(
    buffer: &[u8],
    n: usize,
    trace: i32,
    key: &[u8],
) -> Seg2Location
    ensures { result ≡ as_location (quick_location buffer.now n trace key.now) }
{
    call_quick_values::location(buffer, n, trace, key)
}

// Its samples of code 1 to 3, into a row of as many.
#[unsafe(no_mangle)]
pub extern "C" fn seg2_quick_integers(
    buffer: &[u8],
    n: usize,
    trace: i32,
    row: &mut [i32],
) -> Seg2Verdict
    ensures answer { result ≡ as_verdict (quick_integers buffer.now n trace (length row.old)) }
    ensures row { row.new ≡ quick_integers_left buffer.now n trace row.old }
{
    call_rows::quick_integers(buffer, n, trace, row)
}

// The bit patterns and the classes of its samples of code 4 or 5, into two rows of as many.
#[unsafe(no_mangle)]
pub extern "C" fn seg2_quick_bits(
    buffer: &[u8],
    n: usize,
    trace: i32,
    row: &mut [u64],
    classes: &mut [u8],
) -> Seg2Verdict
    ensures answer { result ≡ as_verdict (quick_bits buffer.now n trace (length row.old)
        (length classes.old)) }
    ensures row { row.new ≡ quick_patterns_left buffer.now n trace row.old
        classes.old }
    ensures classes { classes.new
        ≡ quick_classes_left buffer.now n trace row.old classes.old }
{
    call_rows::quick_bits(buffer, n, trace, row, classes)
}

// ---- older recorders: the lenient reading, and beside each answer the strict check's own row

// Whether the first `n` bytes of the buffer are a file that keeps the rules as the lenient reading has them.
#[unsafe(no_mangle)]
pub extern "C" fn seg2_lenient_check(buffer: &[u8], n: usize) -> Seg2LenientVerdict
    ensures { result ≡ lenient_verdict (check_of Lenient Read buffer.now n)
        (check_of Strict Read buffer.now n) }
{
    call_lenient::check(buffer, n)
}

// The file block.
#[unsafe(no_mangle)]
pub extern "C" fn seg2_lenient_file_block(buffer: &[u8], n: usize) -> Seg2LenientFile
    ensures { result ≡ lenient_file (file_answer Lenient buffer.now n)
        (check_of Strict Read buffer.now n) }
{
    call_lenient::file_block(buffer, n)
}

// A trace's block.
#[unsafe(no_mangle)]
pub extern "C" fn seg2_lenient_trace_block(buffer: &[u8], n: usize, trace: i32) -> Seg2LenientTrace
    ensures { result ≡ lenient_trace (trace_answer Lenient buffer.now n trace)
        (check_of Strict Read buffer.now n) }
{
    call_lenient::trace_block(buffer, n, trace)
}

// How many strings the file (part -1) or a trace has.
#[unsafe(no_mangle)]
pub extern "C" fn seg2_lenient_string_count(buffer: &[u8], n: usize, part: i32) -> Seg2LenientCount
    ensures { result ≡ lenient_count (count_answer Lenient buffer.now n part)
        (check_of Strict Read buffer.now n) }
{
    call_lenient::string_count(buffer, n, part)
}

// The string with an index, counted from 0.
#[unsafe(no_mangle)]
pub extern "C" fn seg2_lenient_string(
    buffer: &[u8],
    n: usize,
    part: i32,
    index: usize,
) -> Seg2LenientString
    ensures { result ≡ lenient_string (nth_answer Lenient buffer.now n part index)
        (check_of Strict Read buffer.now n) }
{
    call_lenient_strings::string(buffer, n, part, index)
}

// All strings of the file or a trace, into a row of four numbers each.
#[unsafe(no_mangle)]
pub extern "C" fn seg2_lenient_strings(
    buffer: &[u8],
    n: usize,
    part: i32,
    row: &mut [usize],
) -> Seg2LenientVerdict
    ensures answer { result ≡ lenient_verdict
        (strings_answer Lenient buffer.now n part (length row.old))
        (check_of Strict Read buffer.now n) }
    ensures row { row.new ≡ strings_left Lenient buffer.now n part row.old }
{
    call_lenient_rows::strings(buffer, n, part, row)
}

// Whether a keyword is there: one of the two calls of a keyword question.
#[unsafe(no_mangle)]
pub extern "C" fn seg2_lenient_keyword(
    buffer: &[u8],
    n: usize,
    part: i32,
    key: &[u8],
) -> Seg2LenientKeyword
    ensures { result ≡ lenient_keyword (keyword_answer Lenient buffer.now n part key.now)
        (check_of Strict Read buffer.now n) }
{
    call_lenient_strings::keyword(buffer, n, part, key)
}

// A keyword's value: the other one.
#[unsafe(no_mangle)]
pub extern "C" fn seg2_lenient_value(
    buffer: &[u8],
    n: usize,
    part: i32,
    key: &[u8],
) -> Seg2LenientValue
    ensures { result ≡ lenient_value (find_answer Lenient buffer.now n part key.now)
        (check_of Strict Read buffer.now n) }
{
    call_lenient_strings::value(buffer, n, part, key)
}

// The number that a keyword's value is.
#[unsafe(no_mangle)]
pub extern "C" fn seg2_lenient_number(
    buffer: &[u8],
    n: usize,
    part: i32,
    key: &[u8],
) -> Seg2LenientNumber
    ensures { result ≡ lenient_number (number_answer Lenient buffer.now n part key.now)
        (check_of Strict Read buffer.now n) }
{
    call_lenient_values::number(buffer, n, part, key)
}

// The double that a keyword's value is.
#[unsafe(no_mangle)]
pub extern "C" fn seg2_lenient_double(
    buffer: &[u8],
    n: usize,
    part: i32,
    key: &[u8],
) -> Seg2LenientDouble
    ensures { result ≡ lenient_double (double_answer Lenient buffer.now n part key.now)
        (check_of Strict Read buffer.now n) }
{
    call_lenient_values::double(buffer, n, part, key)
}

// The location that a keyword's value is.
#[unsafe(no_mangle)]
pub extern "C" fn seg2_lenient_location(
    buffer: &[u8],
    n: usize,
    part: i32,
    key: &[u8],
) -> Seg2LenientLocation
    ensures { result ≡ lenient_location (location_answer Lenient buffer.now n part key.now)
        (check_of Strict Read buffer.now n) }
{
    call_lenient_values::location(buffer, n, part, key)
}

// The samples of a trace of code 1 to 3, into a row of as many.
#[unsafe(no_mangle)]
pub extern "C" fn seg2_lenient_integers(
    buffer: &[u8],
    n: usize,
    trace: i32,
    row: &mut [i32],
) -> Seg2LenientVerdict
    ensures answer { result ≡ lenient_verdict
        (integers_answer Lenient buffer.now n trace (length row.old))
        (check_of Strict Read buffer.now n) }
    ensures row { row.new ≡ integers_left Lenient buffer.now n trace row.old }
{
    call_lenient_rows::integers(buffer, n, trace, row)
}

// The bit patterns and the classes of the samples of a trace of code 4 or 5, into two rows of as many.
#[unsafe(no_mangle)]
pub extern "C" fn seg2_lenient_bits(
    buffer: &[u8],
    n: usize,
    trace: i32,
    row: &mut [u64],
    classes: &mut [u8],
) -> Seg2LenientVerdict
    ensures answer { result ≡ lenient_verdict
        (bits_answer Lenient buffer.now n trace (length row.old) (length classes.old))
        (check_of Strict Read buffer.now n) }
    ensures row { row.new ≡ patterns_left Lenient buffer.now n trace row.old
        classes.old }
    ensures classes { classes.new
        ≡ classes_left Lenient buffer.now n trace row.old classes.old }
{
    call_lenient_rows::bits(buffer, n, trace, row, classes)
}

// ---- writing

// A new file without traces: the byte order (0 low first, 1 high first), the pointer slots, the file's sheet.
#[unsafe(no_mangle)]
pub extern "C" fn seg2_start(buffer: &mut [u8], order: u32, slots: u32, sheet: &[u8]) -> Seg2Length
    ensures answer { result ≡ as_length (start_answer buffer.old order slots sheet.now) }
    ensures left { buffer.new ≡ start_left buffer.old order slots sheet.now }
{
    call_writers::start(buffer, order, slots, sheet)
}

// The length that the file of a start would have, without a buffer: rows 31 and 25 to 27.
#[unsafe(no_mangle)]
pub extern "C" fn seg2_start_size(order: u32, slots: u32, sheet: &[u8]) -> Seg2Length
    ensures { result ≡ as_length (start_needs order slots sheet.now) }
{
    call_writers::start_size(order, slots, sheet)
}

// A trace of integers (codes 1 to 3) behind the image that the buffer's first `n` bytes are.
#[unsafe(no_mangle)]
pub extern "C" fn seg2_add_integers(
    buffer: &mut [u8],
    n: usize,
    sheet: &[u8],
    code: u32,
    row: &[i32],
) -> Seg2Length
    ensures answer { result ≡ as_length (add_answer buffer.old n
        (integers_trace sheet.now code row.now)) }
    ensures left { buffer.new
        ≡ add_left buffer.old n (integers_trace sheet.now code row.now) }
{
    call_writers::add_integers(buffer, n, sheet, code, row)
}

// A trace of bit patterns (codes 4 and 5).
#[unsafe(no_mangle)]
pub extern "C" fn seg2_add_bits(
    buffer: &mut [u8],
    n: usize,
    sheet: &[u8],
    code: u32,
    row: &[u64],
) -> Seg2Length
    ensures answer { result ≡ as_length (add_answer buffer.old n
        (patterns_trace sheet.now code row.now)) }
    ensures left { buffer.new
        ≡ add_left buffer.old n (patterns_trace sheet.now code row.now) }
{
    call_writers::add_bits(buffer, n, sheet, code, row)
}

// The length that the file would have with a trace of `count` samples more, without room for it and without the samples:
// the rows of an addition but 29, and 30 only where no room would do.
#[unsafe(no_mangle)]
pub extern "C" fn seg2_add_size(
    buffer: &[u8],
    n: usize,
    sheet: &[u8],
    code: u32,
    count: usize,
) -> Seg2Length
    ensures { result ≡ as_length (add_needs buffer.now n sheet.now code count) }
{
    call_writers::add_size(buffer, n, sheet, code, count)
}

// ---- a number by itself

// The number that a text is: what a user typed, before it goes into a sheet.
#[unsafe(no_mangle)]
pub extern "C" fn seg2_read_number(text: &[u8]) -> Seg2Number
    ensures { result ≡ as_number (number_in text.now) }
{
    call_numbers::read_number(text)
}

// A number as text with its own decimals, at the start of the lent bytes: minus is 0 or not.
#[unsafe(no_mangle)]
pub extern "C" fn seg2_write_number(
    text: &mut [u8],
    minus: u32,
    coefficient: u64,
    power: i32,
    decimals: u32,
) -> Seg2Length
    ensures answer { result ≡ as_length (numeral_answer (length text.old)
        (as_given minus coefficient power decimals)) }
    ensures left { text.new ≡ numeral_left text.old
        (as_given minus coefficient power decimals) }
{
    call_numbers::write_number(text, minus, coefficient, power, decimals)
}
