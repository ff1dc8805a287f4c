// The box's front end: one reader that keeps the text and the reading place together. Its functions are thin: each takes
// the reader apart and leaves the work to the cursor, over a plain slice. `take` stands above them with plain parameters,
// for callers with a text and a place by themselves; the T line of a text is read by it.
#![tactic(auto)]

ghost use Rattle.std.specs.Prelude.{◌≡◌, ◌<◌, length};
ghost use Rattle.front.specs.ClockLine.{clock_line_says, first_line, line_one_says};
ghost use Rattle.front.specs.Reading.{Moved, Next, Placed, Started, Took, taken_by};
ghost use Rattle.rules.specs.Refusals.{accept, nothing, one};
ghost use Rattle.rules.specs.TableText.{Record};
ghost use Rattle.text.specs.Fields.{taken_says};

use records::Standing;
use rules::{Refusal, Refused};
use text::{Cursor, FieldTaken, LETTER_T, Parsed};

// The text, and the reading place in it.
#[derive(Clone, Copy)]
pub struct Reader<'a> {
    pub text: &'a [u8],
    pub place: Cursor,
}

// Which field stands next: the letter of a line, a number with a tab behind it, or the last of the line.
#[derive(Clone, Copy)]
pub enum Kind {
    Letter,
    Number,
    Last,
}

// The numbers of a T line.
#[derive(Clone, Copy, PartialEq, Eq)]
pub struct Clock {
    pub clock: u64,
    pub budget: u64,
}

// Before the first byte of a text, in line 1.
const FIRST_PLACE: Cursor = Cursor { at: 0, line: 1 };

impl Reader<'_> {
    // The next field, and the place behind it.
    #[tactic(auto, unfolding(crate::specs::Reading::taken_at))]
    fn taken(self, kind: Kind) -> FieldTaken
        ensures { taken_says result ≡ taken_by self.entry kind }
    {
        match kind {
            Kind::Letter => self.place.letter(self.text),
            Kind::Number => self.place.number(self.text, b'\t'),
            Kind::Last => self.place.number(self.text, b'\n'),
        }
    }
}

// A reader of a text at a place: a text begins at byte 0, in line 1.
pub fn start(text: &[u8], place: Cursor) -> Reader<'_>
    ensures { Started text.entry place result }
{
    Reader { text, place }
}

// The next field, which the reader leaves where it is.
pub fn next(reader: Reader<'_>, kind: Kind) -> Result<u64, Refused>
    ensures { Next reader.entry kind result }
{
    reader.taken(kind).field
}

// The reader behind the next field; where that is refused, the reader as it was.
pub fn moved(reader: Reader<'_>, kind: Kind) -> Reader<'_>
    ensures { Moved reader.entry kind result }
{
    let place = reader.taken(kind).next;
    Reader { place, ..reader }
}

// Where the reader stands.
pub fn place(reader: Reader<'_>) -> Cursor
    ensures { Placed reader.entry result }
{
    reader.place
}

// The field of a kind that stands at a place, and the place behind it: a reader is made there, asked and moved on.
pub fn take(text: &[u8], from: Cursor, kind: Kind) -> FieldTaken
    ensures { Took text.now from kind result }
{
    let reader = start(text, from);
    FieldTaken {
        field: next(reader, kind),
        next: place(moved(reader, kind)),
    }
}

// What line 1 alone says, as any line is judged after nothing: the T line's clock and budget, or the refusal.
#[tactic(auto, using(crate::proofs::FirstLine::nothing_noted, crate::proofs::FirstLine::line_one_accepted, crate::proofs::FirstLine::line_one_refused))]
fn line_one(text: &[u8]) -> Result<Clock, Refused>
    requires { 0 < length text.now }
    ensures { clock_line_says result ≡ first_line text.now }
{
    let line = lines::accept_line(text, FIRST_PLACE, Standing::none(), &[])?;
    match line.parsed {
        Parsed::Clock(clock, budget) => Ok(Clock { clock, budget }),
        _ => Err(Refusal::Order.at(1)),
    }
}

// A T line's numbers, judged after nothing.
#[tactic(auto, using(crate::proofs::FirstLine::good_clock, crate::proofs::FirstLine::bad_clock))]
fn clock_line(clock: u64, budget: u64) -> Result<Clock, Refused>
    ensures { clock_line_says result ≡ line_one_says (accept nothing (one (Record.T clock budget))) }
{
    match Standing::none().judge_clock(clock, budget) {
        Ok(()) => Ok(Clock { clock, budget }),
        Err(why) => Err(why.at(1)),
    }
}

// What the first line alone says: the clock and the budget of the T line, or the refusal of line 1. The reader takes the
// letter and both numbers; a line that begins with another letter is judged as a line of a table.
#[tactic(auto, using(crate::proofs::FirstLine::no_line, crate::proofs::FirstLine::no_letter_one, crate::proofs::FirstLine::no_clock_one, crate::proofs::FirstLine::no_budget_one, crate::proofs::FirstLine::both_numbers_one))]
pub fn clock_and_budget(text: &[u8]) -> Result<Clock, Refused>
    ensures { clock_line_says result ≡ first_line text.now }
{
    if text.is_empty() {
        return Err(Refusal::Order.at(1));
    }
    let first = take(text, FIRST_PLACE, Kind::Letter);
    let Ok(letter) = first.field else {
        return Err(Refusal::Shape.at(1));
    };
    if letter != LETTER_T {
        return line_one(text);
    }
    let second = take(text, first.next, Kind::Number);
    let Ok(clock) = second.field else {
        return Err(Refusal::Shape.at(1));
    };
    let third = take(text, second.next, Kind::Last);
    let Ok(budget) = third.field else {
        return Err(Refusal::Shape.at(1));
    };
    clock_line(clock, budget)
}
