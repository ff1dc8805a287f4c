// What a program hears of its caller, and what it says to it: the bytes of an input, and what failed.
#![tactic(auto)]

ghost use Rattle.std.specs.Prelude.{OnOk};
ghost use Rattle.caller.specs.Promises.{FrontOf, IsPrefixLen, SaysOf, Taken, TakenOf};

use std::io;
use std::io::{Read, Write};

// Room for what std says of an error: no words of the system's are as long.
const MOST_SAID: usize = 320;

// Reads on after a short read, until the buffer is full, the input ends or a read fails; answers how many bytes that gave, and
// why a read failed, if one did.
fn read_on<R: Read>(from: &mut R, buffer: &mut [u8]) -> (usize, io::Result<()>)
    ensures front { IsPrefixLen result.0 buffer.new }
    ensures taken { OnOk result.1 (TakenOf (R.remaining from.old) (R.remaining from.new) buffer.new result.0) }
{
    let mut count = 0;
    // a `while`: it grows by what a read gave
    while count < buffer.len() {
        let more = match from.read(&mut buffer[count..]) {
            Ok(more) => more,
            Err(why) => return (count, Err(why)),
        };
        if more == 0 {
            return (count, Ok(()));
        }
        count += more;
    }
    (count, Ok(()))
}

// Reads until the buffer is full, the input ends or a read fails; answers how many bytes that gave.
pub fn read_full(from: &mut impl Read, buffer: &mut [u8]) -> usize
    ensures { IsPrefixLen result buffer.new }
{
    read_on(from, buffer).0
}

// The same of an input that is nothing where a read fails: what was read before it is then no answer.
pub fn read_input<R: Read>(from: &mut R, buffer: &mut [u8]) -> io::Result<usize>
    ensures front { FrontOf buffer.new result }
    ensures taken { Taken (R.remaining from.old) (R.remaining from.new) buffer.new result }
{
    let (count, done) = read_on(from, buffer);
    done?;
    Ok(count)
}

// An error's words as the system has them, at the front of a buffer of zeros: without the number that std puts behind them.
fn words_in(said: &[u8]) -> &str {
    let said = str::from_utf8(said).unwrap_or("");
    let words = match said.split_once(" (os error ") {
        Some((words, _)) => words,
        None => said,
    };
    words.trim_end_matches('\0')
}

// Says what failed, and why.
pub fn fail<W: Write>(say: &mut W, what: &str, why: io::Error) -> io::Result<()>
    ensures { OnOk result (SaysOf what.now (W.contents say.old) (W.contents say.new)) }
{
    let mut said = [0u8; MOST_SAID];
    let mut rest = &mut said[..];
    let _ = write!(rest, "{why}");
    let words = words_in(&said);
    writeln!(say, "{what}: {words}")
}
