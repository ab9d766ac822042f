// The refusal that all crates share, with its rule, part and place: what a question, a check or a writing answers where it
// has no value is `Err` of it, and a refused writing has changed nothing. Document 01, "Refusal numbers, in order of
// checking": Table has the numbers, Rows how the first row met answers, Verdicts what a check tells, Writing what is left
// of lent memory. Stands on nothing.
// The rules in words: docs/FORMAT.md, "Refusal numbers, in order of checking".
#![tactic(auto)]

ghost use Rattle.std.specs.Prelude.{◌≡◌};
ghost use Rattle.refusal.specs.Table.{number_of, Numbered, part_of, refusal};
ghost use Rattle.refusal.specs.Verdicts.{placed};

// The rules that an input can break, in the order of their numbers, which are those of `specs/Table.antt`: `number`
// promises it. The words stand there.
#[derive(Clone, Copy)]
pub enum Rule {
    Length = 1,
    FirstBytes = 2,
    Revision = 3,
    PointerRoom = 4,
    TraceCount = 5,
    Terminator = 6,
    RoomEnd = 7,
    Pointer = 8,
    TraceMark = 9,
    BlockSize = 10,
    DataSize = 11,
    FormatCode = 12,
    SampleCount = 13,
    StringOffset = 14,
    StringEnd = 15,
    Character = 16,
    KeywordOrder = 17,
    NoTrace = 18,
    InputSize = 19,
    NoNumber = 20,
    Digits = 21,
    NoDouble = 22,
    ValueCount = 23,
    NoSlot = 24,
    SheetLine = 25,
    SheetOrder = 26,
    AreaSize = 27,
    EntryCode = 28,
    SampleRange = 29,
    NoRoom = 30,
    StartValues = 31,
    RowLength = 32,
    CodeKind = 33,
    ChannelNumber = 34,
    SheetChannel = 35,
}

// Where a rule was broken: in the file's own block, or in a trace.
#[derive(Clone, Copy)]
pub enum Part {
    File,
    Trace(u16),
}

// The place is a byte position, or an index, in what the caller lent: as wide as any slice's length.
#[derive(Clone, Copy)]
pub struct Refusal {
    pub rule: Rule,
    pub part: Part,
    pub place: usize,
}

// The number that the enum has for a rule, as a cast of an enum gives it: a signed one.
fn row(rule: Rule) -> i64
    ensures { Numbered rule result }
{
    rule as i64
}

// The table's number for a rule.
pub fn number(rule: Rule) -> u32
    ensures { result ≡ number_of rule }
{
    row(rule) as u32
}

// The part as the table counts it: -1 for the file, else the trace.
pub fn part_number(part: Part) -> i32
    ensures { result ≡ part_of part }
{
    match part {
        Part::File => -1,
        Part::Trace(k) => k as i32,
    }
}

// An answer that has a rule where it has no value, with the part and the place where the rule is broken.
pub fn placed<T>(answer: Result<T, Rule>, part: Part, place: usize) -> Result<T, Refusal>
    ensures { result ≡ placed answer part place }
{
    match answer {
        Ok(value) => Ok(value),
        Err(rule) => Err(Refusal { rule, part, place }),
    }
}

// A refusal whose part is the file: rows 1 to 7 and all that are not of a trace's bytes.
pub fn of_file(rule: Rule, place: usize) -> Refusal
    ensures { result ≡ refusal rule Part.File place }
{
    Refusal {
        rule,
        part: Part::File,
        place,
    }
}
