// The box's own front end: a text walked field by field from its start, over all its lines, by one `take` after the other. A
// field is told with the line that it stands in; the first that is refused ends the walk, and so does the end of the last line.
use crate::report::{put_numbers, put_refusal};
use front::Kind;
use text::{Cursor, field_count};

// No text that is walked has more fields.
const MOST_TAKEN: usize = 1000;

// Which field comes next, by how many numbers the line still has: a letter, a number, or the line's last.
fn kind_of(left: u64) -> Kind {
    match left {
        0 => Kind::Letter,
        1 => Kind::Last,
        _ => Kind::Number,
    }
}

// How many numbers the line still has behind a field.
fn left_behind(left: u64, value: u64) -> u64 {
    if 0 < left {
        return left - 1;
    }
    field_count(value) as u64
}

fn put_field(out: &impl Print, left: u64, line: u64, value: u64) {
    if left == 0 {
        put_numbers(out, b"letter", &[line, value]);
        return;
    }
    put_numbers(out, b"number", &[line, value]);
}

pub(crate) fn every_field(out: &impl Print, text: &[u8]) {
    let mut place = Cursor { at: 0, line: 1 };
    let mut left: u64 = 0;
    for _ in 0..MOST_TAKEN {
        if left == 0 && text.len() <= place.at {
            return;
        }
        let taken = front::take(text, place, kind_of(left));
        match taken.field {
            Ok(value) => {
                put_field(out, left, place.line, value);
                left = left_behind(left, value);
            }
            Err(refused) => {
                put_refusal(out, refused);
                return;
            }
        }
        place = taken.next;
    }
}
