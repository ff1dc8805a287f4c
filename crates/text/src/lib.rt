// Reads a table text by a cursor: a field, a row of fields, and one line with its record. Nothing is split or copied: the
// text is lent to each call, and the reading place goes by value.
#![tactic(auto)]

ghost use Rattle.std.specs.Prelude.{◌≡◌, ◌<◌, ◌≤◌, ◌+◌, length, ltb, nat_le, nat_lt};
ghost use Rattle.rules.specs.TableText.{field_count, is_letter, is_number, letter_record, most_digits, most_fields};
ghost use Rattle.text.specs.Fields.{run_says, most_line, DigitRead, NumberRead, RunRead, front, letter_at, line_behind, most_from, number_at, refused_field, row_at, row_says, taken_says};
ghost use Rattle.text.specs.Lines.{LineRead, parsed_with};

use rules::{Hold, Job, MOST_FIELDS, Refusal, Refused, Speed};

// The letters of the four records. They are numbers, as each field that is read is one, a letter too.
pub const LETTER_T: u64 = 84;

const LETTER_F: u64 = 70;

const LETTER_J: u64 = 74;

const LETTER_H: u64 = 72;

// "at most 16 digits"
const MOST_DIGITS: usize = 16;

// The reading place, and the number of the line that it stands in.
#[derive(Clone, Copy, PartialEq, Eq)]
pub struct Cursor {
    pub at: usize,
    pub line: u64,
}

// A field's answer, a number or the refusal of its line, and the reading place behind it; where the field is refused the reading
// place is where it was.
#[derive(Clone, Copy)]
pub struct FieldTaken {
    pub field: Result<u64, Refused>,
    pub next: Cursor,
}

// Digits in a row: how many, the number that they stand for, and the byte that ends them.
#[derive(Clone, Copy)]
struct Run {
    count: usize,
    value: u64,
    end: u8,
}

// What a line holds: the record of one of the four letters.
#[derive(Clone, Copy)]
pub enum Parsed {
    Clock(u64, u64),
    Speed(Speed),
    Job(Job),
    Hold(Hold),
}

// A line's record, and the reading place behind its line feed, in the next line.
#[derive(Clone, Copy)]
pub struct Line {
    pub parsed: Parsed,
    pub next: Cursor,
}

// The digit that a byte is, if it is one. The difference wraps for the bytes below `0`: so one comparison tells them and those
// above `9` from the digits.
fn digit(byte: u8) -> Option<u64>
    ensures { DigitRead byte result }
{
    let digit = u64::from(byte).wrapping_sub(u64::from(b'0'));
    (digit <= 9).then_some(digit)
}

// The digits at the front of a text, among its first so many bytes; none where no byte ends them, since the text does, or they are
// too many for a number.
fn digits_within(text: &[u8], end: usize) -> Option<Run>
    requires { (end ≤ length text.now) × (end ≤ most_digits + 1) }
    ensures { RunRead (nat_lt (length (front text.now)) end) text.now result }
{
    let mut value: u64 = 0;
    for (count, byte) in text[..end].iter().enumerate() {
        let Some(next) = digit(*byte) else {
            let end = *byte;
            return Some(Run { count, value, end });
        };
        value = value * 10 + next;
    }
    None
}

// The digits at the front of a text, if they are not more than so many.
fn digits(text: &[u8], most: usize) -> Option<Run>
    requires { most ≤ most_digits }
    ensures { RunRead (nat_le (length (front text.now)) most) text.now result }
{
    if most < text.len() {
        return digits_within(text, most + 1);
    }
    digits_within(text, text.len())
}

// How many digits a number has at most, by the first: 0 has one, and no other number begins with it.
fn most_digits(first: u64) -> usize
    ensures { (result ≡ most_from first) × (result ≤ most_digits) }
{
    if first == 0 { 1 } else { MOST_DIGITS }
}

// The number at the front of a text of so many bytes. It is read apart from that of a shorter text, since how far to read is
// a constant here in each case, and the compiler writes the loop out.
fn long_number(text: &[u8]) -> Option<Run>
    requires { most_digits < length text.now }
    ensures { RunRead (is_number (front text.now)) text.now result }
{
    if digit(text[0])? == 0 {
        return digits_within(text, 2);
    }
    digits_within(text, MOST_DIGITS + 1)
}

// The letter table: how many numbers stand behind each letter, and 0 for any other byte.
pub fn field_count(letter: u64) -> usize
    ensures { (result ≡ field_count letter) × (result ≤ most_fields) }
{
    match letter {
        LETTER_T => 2,
        LETTER_F => 2,
        LETTER_J => 6,
        LETTER_H => 2,
        _ => 0,
    }
}

// A byte that numbers stand behind.
fn is_letter(byte: u8) -> bool
    ensures { result ≡ is_letter byte }
{
    field_count(byte as u64) != 0
}

// The line behind the byte that ends a field: behind a line feed the next one begins.
fn line_behind(end: u8, line: u64) -> u64
    ensures { result ≡ line_behind end line }
{
    if end == b'\n' {
        return line.saturating_add(1);
    }
    line
}

impl Cursor {
    // The refusal of a field that has not the shape of one.
    fn refused_field(self) -> FieldTaken
        ensures { taken_says result ≡ refused_field self }
    {
        FieldTaken {
            field: Err(Refusal::Shape.at(self.line)),
            next: self,
        }
    }

    // The digits that stand here, if they are a number.
    fn run(self, text: &[u8]) -> Option<Run>
        ensures { NumberRead text.now self result }
    {
        let at = self.at;
        if at < text.len().saturating_sub(MOST_DIGITS) {
            return long_number(&text[at..]);
        }
        let first = digit(*text.get(at)?)?;
        digits(&text[at..], most_digits(first))
    }

    // What digits that stand here, if they are a number, say of a field that the byte `end` is to end.
    fn ended(self, run: Option<Run>, end: u8) -> FieldTaken
        requires { (digits : Run) → run ≡ Some digits → self.at + digits.count < most_line }
        ensures { taken_says result ≡ run_says self end run }
    {
        let Some(digits) = run else {
            return self.refused_field();
        };
        if digits.end != end {
            return self.refused_field();
        }
        FieldTaken {
            field: Ok(digits.value),
            next: Cursor {
                at: self.at + digits.count + 1,
                line: line_behind(end, self.line),
            },
        }
    }

    // The number that stands here and is ended by the byte `end`.
    pub fn number(self, text: &[u8], end: u8) -> FieldTaken
        ensures { taken_says result ≡ number_at text.now self end }
    {
        self.ended(self.run(text), end)
    }

    // The letter of a record that stands here alone before a tab.
    pub fn letter(self, text: &[u8]) -> FieldTaken
        ensures { taken_says result ≡ letter_at text.now self }
    {
        let at = self.at;
        if text.len() <= at {
            return self.refused_field();
        }
        let behind = at + 1;
        if behind == text.len() {
            return self.refused_field();
        }
        if text[behind] != b'\t' {
            return self.refused_field();
        }
        let byte = text[at];
        if !is_letter(byte) {
            return self.refused_field();
        }
        FieldTaken {
            field: Ok(byte as u64),
            next: Cursor {
                at: behind + 1,
                line: self.line,
            },
        }
    }

    // The numbers from here to the end of the line, as many as there are places for: all but the last are ended by a tab, and
    // the last by the line feed. No line has none.
    fn row(self, text: &[u8], numbers: &mut [u64]) -> Result<Cursor, Refused>
        ensures { row_says self numbers.new result ≡ row_at (length numbers.old) text.now self }
    {
        let count = numbers.len();
        if count == 0 {
            return Err(Refusal::Shape.at(self.line));
        }
        let mut place = self;
        for (before, number) in numbers.iter_mut().enumerate() {
            let end = if before + 1 < count { b'\t' } else { b'\n' };
            // not by `number`: the compiler would make two of it, one for each end
            let taken = place.ended(place.run(text), end);
            let Ok(value) = taken.field else {
                return Err(Refusal::Shape.at(self.line));
            };
            *number = value;
            place = taken.next;
        }
        Ok(place)
    }
}

// What a letter makes of its numbers; any other byte makes the refusal of the line.
fn parsed_of(letter: u64, numbers: &[u64; MOST_FIELDS], line: u64) -> Result<Parsed, Refused>
    ensures { result ≡ parsed_with line (letter_record letter numbers.now) }
{
    match letter {
        LETTER_T => Ok(Parsed::Clock(numbers[0], numbers[1])),
        LETTER_F => Ok(Parsed::Speed(Speed {
            mhz: numbers[0],
            cost: numbers[1],
        })),
        LETTER_J => Ok(Parsed::Job(Job {
            number: numbers[0],
            cycles: numbers[1],
            worth: numbers[2],
            critical: numbers[3],
            termination: numbers[4],
            request: numbers[5],
        })),
        LETTER_H => Ok(Parsed::Hold(Hold {
            resource: numbers[0],
            holder: numbers[1],
        })),
        _ => Err(Refusal::Shape.at(line)),
    }
}

// The line that stands at a place of the text. For every place there is an answer: at the end of the text it is the refusal.
pub fn record_at(text: &[u8], place: Cursor) -> Result<Line, Refused>
    ensures { LineRead text.now place result }
{
    let taken = place.letter(text);
    let Ok(letter) = taken.field else {
        return Err(Refusal::Shape.at(place.line));
    };
    let mut numbers = [0; MOST_FIELDS];
    let count = field_count(letter);
    let Ok(next) = taken.next.row(text, &mut numbers[..count]) else {
        return Err(Refusal::Shape.at(place.line));
    };
    let parsed = parsed_of(letter, &numbers, place.line)?;
    Ok(Line { parsed, next })
}
