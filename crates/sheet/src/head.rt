// The box's own front end: the T line of a text, or the refusal of line 1.
use crate::report::{put_numbers, put_refusal};

pub(crate) fn first_line(out: &impl Print, text: &[u8]) {
    match front::clock_and_budget(text) {
        Ok(first) => put_numbers(out, b"T", &[first.clock, first.budget]),
        Err(refused) => put_refusal(out, refused),
    }
}
