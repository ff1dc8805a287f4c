// The program: reads a table from standard input, at most its first 4,096 bytes, and prints its listing. With --rooms it prints
// a line for each turn instead: the turn's number, its job, the room after it and the fate that it gave. With --budget N, which
// stands behind --rooms, the table is planned with N in the place of its own budget; N is a number as the table text has them.
//
// Other words are answered with the line of its use, on standard error, before anything is read. An N beyond the range of a
// budget is refused as document 02 says, after the table's own refusal; that it is N which is refused stands on standard error.
//
// What goes wrong outside the table is said on standard error, and standard output then has no whole listing:
// - A read that fails prints nothing at all: a plan of half a table must not pass for the plan of the table. A whole
//   listing is never empty, and where there is no turn to tell of that is said on standard error, so that an empty output of
//   which nothing is said is always a failure.
// - A write that fails, as to a closed or a full output or to a pipe that nobody reads any more, is not tried again. What was
//   printed before it stands.
// The exit status is 0 all the same.
#![tactic(auto)]

ghost use Rattle.std.specs.Prelude.{◌≡◌, OnOk};
ghost use Rattle.std.specs.Bool.{OnTrue};
ghost use Rattle.std.specs.Io.KnownBytes.{Appends};
ghost use Rattle.beside.specs.Listed.{wrote};
ghost use Rattle.cuddlelamb.specs.Program.{BudgetIn, ListedAs, PrintedOf, lines_asked};
ghost use Rattle.rules.specs.Refusals.{written};

use caller::{fail, read_input};
use records::budget_in_range;
use rules::Refused;
use std::env::{Env, FillError};
use std::io;
use std::io::{Read, Write};
use text::Cursor;

const MOST_READ: usize = 4096;

// The bytes of the longest lines of rooms (`longest_rooms` of roomlines/proofs/LongestRooms). No listing is as long.
const MOST_PRINTED: usize = 1719;

// Room for a word of the command line. No number, and neither option, is as long.
const WORD: usize = 32;

// Words of the command line that do not ask for anything that can be understood.
#[derive(Clone, Copy)]
struct Unknown;

// The budget that a word is, where it is a number as the table text has them. The word is the front of its buffer, and a byte 0,
// which no word has, stands behind it.
fn budget_in(buffer: &[u8]) -> Option<u64>
    ensures { BudgetIn buffer.now result }
{
    let start = Cursor { at: 0, line: 1 };
    start.number(buffer, 0).field.ok()
}

// Whether the word at this place of the command line is the option that is wanted.
fn option_at(words: &impl Env, place: usize, wanted: &[u8]) -> bool {
    let mut word = [0u8; WORD];
    match words.arg(place, &mut word) {
        Ok(count) => &word[..count] == wanted,
        Err(_) => false,
    }
}

// Whether the command line ends before this place.
fn is_missing(words: &impl Env, place: usize) -> bool {
    let mut front = [0u8; 1];
    matches!(words.arg(place, &mut front), Err(FillError::NotPresent))
}

// The budget that the words behind these ask for beside the table's own, if they do.
fn budget_asked(words: &impl Env, rooms: bool) -> Result<Option<u64>, Unknown> {
    let first = if rooms { 2 } else { 1 };
    if is_missing(words, first) {
        return Ok(None);
    }
    if !is_missing(words, first + 2) || !option_at(words, first, b"--budget") {
        return Err(Unknown);
    }
    let mut word = [0u8; WORD];
    if words.arg(first + 1, &mut word).is_err() {
        return Err(Unknown);
    }
    budget_in(&word).map(Some).ok_or(Unknown)
}

// Says that the budget beside is the one that is refused, where it is, and not the text.
fn tell_budget(text: &[u8], budget: u64, say: &mut impl Write) {
    if !budget_in_range(budget) && reader::read(text).is_ok() {
        let _ = say.write_all(b"the budget beside the table is above 1000000000000000\n");
    }
}

// The lines that are asked for: of the rooms or the listing, with the text's own budget or with one beside it.
#[tactic(auto, unfolding(rules::specs::Listing::listing, rules::specs::Listing::listing_with))]
fn list_asked(
    text: &[u8],
    rooms: bool,
    asked: Option<u64>,
    out: &mut [u8],
) -> Result<usize, Refused>
    ensures { wrote result out.new ≡ written (lines_asked text.now rooms asked) out.old }
{
    match (rooms, asked) {
        (true, None) => roomlines::list_rooms(text, out),
        (true, Some(budget)) => roomlines::list_rooms_with_budget(text, budget, out),
        (false, None) => listing::list(text, out),
        (false, Some(budget)) => listing::list_with_budget(text, budget, out),
    }
}

// The same at the front of the buffer, and their length. They are never refused: there is room for all lines.
fn list_whole(
    text: &[u8],
    rooms: bool,
    asked: Option<u64>,
    buffer: &mut [u8; MOST_PRINTED],
) -> usize
    ensures { ListedAs (lines_asked text.now rooms asked) buffer.new result }
{
    list_asked(text, rooms, asked, buffer).unwrap_or(0)
}

// Only the rooms of a table in which no job has a turn have no line.
fn print_asked<W: Write>(
    text: &[u8],
    rooms: bool,
    asked: Option<u64>,
    out: &mut W,
    say: &mut impl Write,
) -> io::Result<()>
    ensures { OnOk result (Appends (W.contents out.old) (W.contents out.new) (lines_asked text.now rooms asked)) }
{
    let mut lines = [0u8; MOST_PRINTED];
    let length = list_whole(text, rooms, asked, &mut lines);
    if length == 0 {
        let _ = say.write_all(b"no job has a turn\n");
        return Ok(());
    }
    out.write_all(&lines[..length])
}

// Reads a table and prints the lines that are asked for, and whether it did. What goes wrong is said.
fn plan_input<R: Read, W: Write>(
    rooms: bool,
    asked: Option<u64>,
    from: &mut R,
    out: &mut W,
    say: &mut impl Write,
) -> bool
    ensures { OnTrue result (PrintedOf MOST_READ rooms asked (R.remaining from.old) (W.contents out.old) (W.contents out.new)) }
{
    let mut text = [0u8; MOST_READ];
    let read = match read_input(from, &mut text) {
        Ok(read) => read,
        Err(why) => {
            let _ = fail(say, "standard input", why);
            return false;
        }
    };
    let printed = print_asked(&text[..read], rooms, asked, out, say);
    if let Err(why) = printed {
        let _ = fail(say, "standard output", why);
    }
    if let Some(budget) = asked {
        tell_budget(&text[..read], budget, say);
    }
    printed.is_ok()
}

fn main(rt: HostRuntime) {
    let rooms = option_at(&rt, 1, b"--rooms");
    let mut say = rt.stderr();
    match budget_asked(&rt, rooms) {
        Ok(asked) => {
            plan_input(rooms, asked, &mut rt.stdin(), &mut rt.stdout(), &mut say);
        }
        Err(Unknown) => {
            let _ = say.write_all(b"usage: cuddlelamb [--rooms] [--budget N] < TABLE\n");
        }
    }
}
