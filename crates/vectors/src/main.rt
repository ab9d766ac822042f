// The worked values of document 01 and the examples of the paper (document 001), run against the proved functions. Each
// group writes one line, and the stored output is what they have to write. Stands on the leaves (`image`, `strings`,
// `lookup`, `decode`, `encode`, `decimal`, `double`, `location`) and, for what is written and read back, on `start`,
// `writer` and `samples`.
// The rules in words: docs/FORMAT.md, "Worked values".
#![tactic(auto)]

use chars::Kind;
use head_limits::Purpose;
use refusal::{Part, Refusal};
use strings::Place;
use text::Manner;

// ---- comparisons

// The number that an answer is refused by, or 0.
fn number_of<T: Copy>(answer: Result<T, Refusal>) -> u32 {
    match answer {
        Ok(_) => 0,
        Err(r) => refusal::number(r.rule),
    }
}

fn number_is(text: &[u8], minus: bool, coefficient: u64, power: i32) -> bool {
    let Ok(n) = decimal::number(text) else {
        return false;
    };
    n.minus == minus && n.coefficient == coefficient && n.power == power
}

fn number_refused(text: &[u8], number: u32) -> bool {
    number_of(decimal::number(text)) == number
}

fn double_is(text: &[u8], value: f64) -> bool {
    matches!(double::double(text), Ok(x) if x == value)
}

fn double_refused(text: &[u8], number: u32) -> bool {
    number_of(double::double(text)) == number
}

fn location_is(text: &[u8], count: u32, x: f64, y: f64, z: f64) -> bool {
    let Ok(c) = location_text::location(text) else {
        return false;
    };
    c.count == count && c.x == x && c.y == y && c.z == z
}

fn location_refused(text: &[u8], number: u32) -> bool {
    number_of(location_text::location(text)) == number
}

// One sample of codes 1 and 2.
fn sample_is(code: u8, block: &[u8], high: bool, value: i32) -> bool {
    let mut row = [0i32];
    let read = decode::read_integers(code, block, high, &mut row);
    read && row[0] == value
}

// One group of code 3.
fn group_is(block: &[u8], high: bool, a: i32, b: i32, c: i32, d: i32) -> bool {
    let mut row = [0i32; 4];
    let read = decode::read_integers(3, block, high, &mut row);
    read && row == [a, b, c, d]
}

// One pattern of codes 4 and 5, and its class.
fn bits_are(code: u8, block: &[u8], high: bool, pattern: u64, class: u8) -> bool {
    let mut row = [0u64];
    let mut classes = [9u8];
    let read = patterns::read_bits(code, block, high, &mut row, &mut classes);
    read && row[0] == pattern && classes[0] == class
}

// Row 29 of code 3.
fn unfit(value: i32) -> bool {
    fit::unfit_integers(3, &[value, 0, 0, 0]) == Some(0)
}

// Strings with the string terminator 00 and the line terminator 0A 0D, low byte first.
fn accepted(area: &[u8]) -> bool {
    strings_check::check(
        area,
        0,
        area.len(),
        false,
        b"\x00",
        b"\x0a\x0d",
        Part::File,
        Manner::Strict,
    )
    .is_ok()
}

// Whether the area has a text from one place to another.
fn part_is(area: &[u8], from: usize, to: usize, text: &[u8]) -> bool {
    area.get(from..to) == Some(text)
}

fn place_is(area: &[u8], found: Option<Place>, key: &[u8], value: &[u8]) -> bool {
    let Some(p) = found else {
        return false;
    };
    part_is(area, p.key, p.gap, key) && part_is(area, p.value, p.end, value)
}

// Whether the i-th string of the area, which is also the one that its keyword finds, is this text: keyword, space,
// value.
fn string_is(area: &[u8], i: usize, text: &[u8]) -> bool {
    let n = chars::run(Kind::Solid, text);
    if text.len() <= n {
        return false;
    }
    let key = &text[..n];
    let value = &text[n + 1..];
    let nth = lookup::nth(area, 0, area.len(), false, b"\x00", i, Manner::Strict);
    let found = lookup::find(area, 0, area.len(), false, b"\x00", key, Manner::Strict);
    place_is(area, nth, key, value) && place_is(area, found, key, value)
}

// Whether the area has these strings and no other.
fn strings_are(area: &[u8], texts: &[&[u8]]) -> bool {
    accepted(area)
        && lookup::count(area, 0, area.len(), false, b"\x00", Manner::Strict) == texts.len()
        && texts
            .iter()
            .enumerate()
            .all(|(i, text)| string_is(area, i, text))
}

// The number that a file is refused by, or 0.
fn refused_by(file: &[u8]) -> u32 {
    number_of(image::check(file, file.len(), Purpose::Read, Manner::Strict))
}

// "Low first, one slot, sheet UNITS METERS", and one trace with sheet STACK 1.
fn added(file: &mut [u8], code: u32, row: &[i32]) -> Result<usize, Refusal> {
    let n = start::start(file, 0, 1, b"UNITS\tMETERS\n")?;
    writer::add_integers(file, n, b"STACK\t1\n", code, row)
}

// ---- the groups

fn line(name: &[u8], ok: bool) {
    io::write_all(1, name);
    if ok {
        io::write_all(1, b": ok\n");
    } else {
        io::write_all(1, b": WRONG\n");
    }
}

fn samples() -> bool {
    sample_is(1, b"\xff\xff", false, -1)
        && sample_is(1, b"\xff\xff", true, -1)
        && sample_is(1, b"\x00\x80", false, -32768)
        && sample_is(1, b"\x7f\xff", true, 32767)
        && sample_is(2, b"\x80\x00\x00\x00", true, -2147483648)
        && sample_is(2, b"\xff\xff\xff\xff", false, -1)
}

fn groups() -> bool {
    group_is(
        b"\x10\xf2\x01\x00\xfe\xff\x05\x00\xff\x7f",
        false,
        1,
        -2,
        20,
        1073709056,
    ) && group_is(
        b"\xf2\x10\x00\x01\xff\xfe\x00\x05\x7f\xff",
        true,
        1,
        -2,
        20,
        1073709056,
    ) && unfit(1073741824)
        && unfit(-1073741824)
        && !unfit(1073741823)
}

fn patterns() -> bool {
    bits_are(4, b"\x00\x00\x80\x3f", false, 1065353216, 2)
        && bits_are(4, b"\xc0\x00\x00\x00", true, 3221225472, 2)
        && bits_are(4, b"\x00\x00\x00\x00", true, 0, 0)
        && bits_are(4, b"\x00\x00\x00\x01", true, 1, 1)
        && bits_are(4, b"\x7f\x80\x00\x00", true, 2139095040, 3)
        && bits_are(4, b"\x7f\x80\x00\x01", true, 2139095041, 4)
        && bits_are(
            5,
            b"\xc0\x00\x00\x00\x00\x00\x00\x00",
            true,
            13835058055282163712,
            2,
        )
}

fn numbers() -> bool {
    number_is(b"0.020", false, 20, -3)
        && number_refused(b"0,020", 20)
        && number_refused(b"12.", 20)
        && number_is(b"-34.6", true, 346, -1)
        && number_is(b"1.345E24", false, 1345, 21)
        && double_refused(b"1.345E24", 22)
        && number_is(b"-2.3E6", true, 23, 5)
        && double_is(b"-34.6", -34.6)
        && location_refused(b"1 2", 23)
}

fn allowed_numbers() -> bool {
    number_is(b"12", false, 12, 0)
        && number_is(b"-3", true, 3, 0)
        && number_is(b"12.657", false, 12657, -3)
        && number_is(b"5.6E-11", false, 56, -12)
        && number_is(b"-2.0E-9", true, 20, -10)
        && double_is(b"12.657", 12.657)
        && double_is(b"-2.3E6", -2300000.0)
        && double_is(b"5.6E-11", 5.6e-11)
}

fn locations() -> bool {
    location_is(b"120.5 0 0.25", 3, 120.5, 0.0, 0.25) && location_is(b"100.0", 1, 100.0, 0.0, 0.0)
}

// Figure C-1: what stands at each offset as printed.
fn figure_c_1(area: &[u8]) -> bool {
    strings_are(
        area,
        &[
            b"ACQUISITION_DATE 16/08/1989",
            b"ACQUISITION_TIME 14:23:06",
            b"COMPANY XYZ Geophysical Inc.",
            b"INSTRUMENT Acme Instruments ES-12 #0001",
            b"JOB_ID Casselman, Ontario 1989",
            b"OBSERVER Joe Blow",
            b"TRACE_SORT AS_ACQUIRED",
            b"UNITS METERS",
            b"NOTE This example is for illustrative purposes only",
        ],
    )
}

// Figure C-2, with the decimal points that the scan lost; of its NOTE the second line and the terminator before it.
fn figure_c_2(area: &[u8]) -> bool {
    strings_are(
        area,
        &[
            b"AMPLITUDE_RECOVERY NONE",
            b"DELAY 0.020",
            b"FIXED_GAIN 84",
            b"HIGH_CUT_FILTER 1000 -12",
            b"LINE_ID 100",
            b"LOW_CUT_FILTER 250 12",
            b"NOTCH_FREQUENCY 60",
            b"POLARITY 1",
            b"RECEIVER VERTICAL_GEOPHONE",
            b"RECEIVER_LOCATION 120.5 0 0.25",
            b"RECEIVER_SPECS Mark Products L28E 40 Hz",
            b"SAMPLE_INTERVAL 0.0002",
            b"SOURCE 12-gauge WIN VW12BL black powder",
            b"SOURCE_LOCATION 100.0",
            b"STACK 1",
            b"TRACE_TYPE SEISMIC_DATA",
            b"NOTE The sample interval\x0a\x0dwas 2 microseconds.",
        ],
    )
}

// "one trace of code 1 with samples 1, -1, 256 .. length 108": the file of document 01's listing, byte by byte.
fn written(file: &mut [u8]) -> bool {
    matches!(added(file, 1, &[1, -1, 256]), Ok(108))
        && &*file
            == b"U:\x01\x00\x04\x00\x01\x00\x01\x00\x00\x01\x0a\x00\x00\x00\x00\x00\x00\x00\x00\x00\x00\x00\x00\x00\x00\x00\x00\x00\x00\x008\x00\x00\x00\x0f\x00UNITS METERS\x00\x00\x00\x00\x00\x00\"D,\x00\x08\x00\x00\x00\x03\x00\x00\x00\x01\x00\x00\x00\x00\x00\x00\x00\x00\x00\x00\x00\x00\x00\x00\x00\x00\x00\x00\x00\x0a\x00STACK 1\x00\x00\x00\x01\x00\xff\xff\x00\x01\x00\x00".as_slice()
}

// The number that the file is refused by once a word in it is another.
fn refused_with(file: &mut [u8], at: usize, n: u16) -> u32 {
    if file.len() < 2 || file.len() - 2 < at {
        return 99;
    }
    store::put2(file, false, at, n);
    refused_by(file)
}

// The worked file, which `written` has made; M=0 is refused by 4, and M=65532 only by 7, for the file is short; B=28 is
// refused by 10, and B=32 passes. B stands in byte 58.
fn files(file: &mut [u8]) -> bool {
    let whole = refused_by(file) == 0;
    let rooms = refused_with(file, 4, 0) == 4 && refused_with(file, 4, 65532) == 7;
    let again = refused_with(file, 4, 4) == 0;
    let blocks = refused_with(file, 58, 28) == 10 && refused_with(file, 58, 32) == 0;
    whole && rooms && again && blocks
}

fn file_lines() {
    let mut file = [255u8; 108];
    let ok = written(&mut file);
    line(b"files", files(&mut file));
    line(b"a file written", ok);
}

// Code 3 written: 100000 has exponent 2 and mantissa 25000, -32769 reads back -32768 and 1073741823 reads back
// 1073709056; 1073741824 is refused by 29.
fn groups_written() -> bool {
    let mut file = [255u8; 112];
    let n = added(&mut file, 3, &[100000, -32769, 1073741823, 0]);
    let data = &file[100..112] == b"\x12\x0f\xa8\x61\xff\xbf\xff\x7f\x00\x00\x00\x00".as_slice();
    let mut back = [0; 4];
    let read = samples::integers(&file, 112, 0, &mut back, Manner::Strict).is_ok()
        && back == [100000, -32768, 1073709056, 0];
    let large = number_of(added(&mut file, 3, &[1073741824, 0, 0, 0])) == 29;
    matches!(n, Ok(112)) && data && read && large
}

fn main() {
    line(b"samples", samples());
    line(b"20-bit groups", groups());
    line(b"bit patterns", patterns());
    line(b"numbers", numbers());
    line(b"allowed numbers", allowed_numbers());
    line(b"locations", locations());
    line(
        b"figure C-1",
        figure_c_1(
            b"\x1e\x00ACQUISITION_DATE 16/08/1989\x00\x1c\x00ACQUISITION_TIME 14:23:06\x00\x1f\x00COMPANY XYZ Geophysical Inc.\x00*\x00INSTRUMENT Acme Instruments ES-12 #0001\x00!\x00JOB_ID Casselman, Ontario 1989\x00\x14\x00OBSERVER Joe Blow\x00\x19\x00TRACE_SORT AS_ACQUIRED\x00\x0f\x00UNITS METERS\x006\x00NOTE This example is for illustrative purposes only\x00\x00\x00",
        ),
    );
    line(
        b"figure C-2",
        figure_c_2(
            b"\x1a\x00AMPLITUDE_RECOVERY NONE\x00\x0e\x00DELAY 0.020\x00\x10\x00FIXED_GAIN 84\x00\x1b\x00HIGH_CUT_FILTER 1000 -12\x00\x0e\x00LINE_ID 100\x00\x18\x00LOW_CUT_FILTER 250 12\x00\x15\x00NOTCH_FREQUENCY 60\x00\x0d\x00POLARITY 1\x00\x1d\x00RECEIVER VERTICAL_GEOPHONE\x00!\x00RECEIVER_LOCATION 120.5 0 0.25\x00*\x00RECEIVER_SPECS Mark Products L28E 40 Hz\x00\x19\x00SAMPLE_INTERVAL 0.0002\x00*\x00SOURCE 12-gauge WIN VW12BL black powder\x00\x18\x00SOURCE_LOCATION 100.0\x00\x0a\x00STACK 1\x00\x1a\x00TRACE_TYPE SEISMIC_DATA\x000\x00NOTE The sample interval\x0a\x0dwas 2 microseconds.\x00\x00\x00",
        ),
    );
    file_lines();
    line(b"20-bit groups written", groups_written());
}
