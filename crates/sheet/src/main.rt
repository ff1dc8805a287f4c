// Runs document 01's sheet of examples, starred or not, and cases of our own, and prints one report, held to `stdout`. Each
// case is a line with its name, and then what the calls answered.
//
// An argument names a report and a table of data/, as `list:S`:
// - `list`: the listing, as the program prints it.
// - `plan`: the text read, and its table planned with its own budget: `plan_into`, then `plan_into` and `hand_back`, then `plan`,
//   each with the whole of both marked buffers afterwards.
// - `knob`: the text read once, and its table planned with several budgets beside it.
// - `many`: the listing with several budgets beside the text.
// - `each`: the text read once, and `rooms` of its table with several budgets beside it: the room after each turn.
// - `room`: `plan_into`, `list` and `write` with as many places as they need, and with one fewer.
// - `text`: the table read and written again.
// - `bent`: the table with its records or counts made wrong, written, and planned with a good budget beside it.
// - `head`: the first line alone, as the box's front end reads it.
// - `walk`: every field, as the box's front end walks the text, with the line that it stands in.
// Then come the cycles to allocate and the supplied costs, by number.
//
// A buffer is marked before it is lent, so that what a call leaves alone shows its mark. What the calls promise is proved of
// them; of what a program prints no contract can speak, and so the report is compared.
#![tactic(auto)]

mod again;
mod bent;
mod fields;
mod head;
mod leaves;
mod plan;
mod report;
mod room;
mod turns;

use caller::{fail, read_full};
use report::put;
use std::env::{Env, FillError};
use std::fs::{File, Files};
use std::io;
use std::io::{ErrorKind, Write};

// No text that is tried is longer.
const MOST_INPUT: usize = 8192;

// Room for an argument.
const MOST_NAME: usize = 4096;

// The four letters of the report and the colon.
const REPORT: usize = 5;

// The system's numbers of what may be wrong with an argument; it has none for one that is too short.
const NO_ERROR: i32 = 0;

const MISSING: i32 = 22;

const TOO_LONG: i32 = 36;

// The listing, in a buffer that has room for every one.
fn list(out: &impl Print, text: &[u8]) {
    let mut lines = [0u8; 1200];
    let listed = listing::list(text, &mut lines);
    report::put_listing(out, listed, &lines);
}

// The listing with a budget beside the text.
fn list_with(out: &impl Print, text: &[u8], budget: u64) {
    let mut lines = [0u8; 1200];
    let listed = listing::list_with_budget(text, budget, &mut lines);
    report::put_listing(out, listed, &lines);
}

fn list_many(out: &impl Print, text: &[u8]) {
    list_with(out, text, 0);
    list_with(out, text, 2499999999);
    list_with(out, text, plan::MOST_BUDGET);
    list_with(out, text, plan::MOST_BUDGET + 1);
}

// The report that begins with the letter.
fn run(out: &impl Print, letter: u8, text: &[u8]) {
    match letter {
        b'l' => list(out, text),
        b'p' => plan::all_three(out, text),
        b'k' => plan::turn_the_knob(out, text),
        b'm' => list_many(out, text),
        b'r' => room::each_call(out, text),
        b'e' => turns::after_each(out, text),
        b't' => again::read_and_write(out, text),
        b'b' => bent::each_way(out, text),
        b'h' => head::first_line(out, text),
        b'w' => fields::every_field(out, text),
        _ => put(out, b"no such report\n"),
    }
}

// The case of a file.
fn run_file(rt: &(impl Files + Print), say: &mut impl Write, letter: u8, path: &[u8]) {
    let Ok(path) = str::from_utf8(path) else {
        let _ = fail(say, "argument", io::Error::from(ErrorKind::InvalidFilename));
        return;
    };
    let mut file = match File::open(rt, path) {
        Ok(file) => file,
        Err(why) => {
            let _ = fail(say, path, why);
            return;
        }
    };
    let mut text = [0u8; MOST_INPUT];
    let count = read_full(&mut file, &mut text);
    run(rt, letter, &text[..count]);
}

// What the system says of an argument that is missing, and of one that is too long.
fn why_none(why: FillError) -> io::Error {
    match why {
        FillError::NotPresent => io::Error::from_raw_os_error(MISSING),
        FillError::TooLong => io::Error::from_raw_os_error(TOO_LONG),
    }
}

// The case that an argument names.
fn run_argument(rt: &(impl Env + Files + Print), say: &mut impl Write, i: usize) {
    let mut name = [0u8; MOST_NAME];
    let count = match rt.arg(i, &mut name) {
        Ok(count) => count,
        Err(why) => {
            let _ = fail(say, "argument", why_none(why));
            return;
        }
    };
    if count < REPORT {
        let _ = fail(say, "argument", io::Error::from_raw_os_error(NO_ERROR));
        return;
    }
    report::put_name(rt, &name[..count]);
    let letter = name[0];
    run_file(rt, say, letter, &name[REPORT..count]);
}

// How many words the command line has, the program's name among them.
fn count_words(words: &impl Env) -> usize {
    for place in 0..usize::MAX {
        let mut front = [0u8; 1];
        if let Err(FillError::NotPresent) = words.arg(place, &mut front) {
            return place;
        }
    }
    usize::MAX
}

fn main(rt: HostRuntime) {
    let mut say = rt.stderr();
    for i in 1..count_words(&rt) {
        run_argument(&rt, &mut say, i);
    }
    leaves::allocations(&rt);
    leaves::costs(&rt);
}
