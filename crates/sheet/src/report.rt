// The lines of the report. Where they cannot be printed that is not said: the report then differs.
use rules::{Decision, Refused};

pub(crate) fn put(out: &impl Print, bytes: &[u8]) {
    let _ = out.write_all(bytes);
}

pub(crate) fn put_number(out: &impl Print, number: u64) {
    put(out, b"\t");
    let _ = out.print(number);
}

// A case's name.
pub(crate) fn put_name(out: &impl Print, name: &[u8]) {
    put(out, b"# ");
    put(out, name);
    put(out, b"\n");
}

// The name of what comes next in a case.
pub(crate) fn put_part_name(out: &impl Print, name: &[u8]) {
    put(out, b"- ");
    put(out, name);
    put(out, b"\n");
}

// A line of numbers.
pub(crate) fn put_numbers(out: &impl Print, name: &[u8], numbers: &[u64]) {
    put(out, name);
    for number in numbers {
        put_number(out, *number);
    }
    put(out, b"\n");
}

// "A refusal prints only R number line."
pub(crate) fn put_refusal(out: &impl Print, refused: Refused) {
    put_numbers(out, b"R", &[refused.why.into(), refused.line]);
}

// "P speed energy count".
pub(crate) fn put_decision(out: &impl Print, decision: Result<Decision, Refused>) {
    match decision {
        Ok(plan) => put_numbers(out, b"P", &[plan.speed, plan.energy, plan.count as u64]),
        Err(refused) => put_refusal(out, refused),
    }
}

// How many bytes were written.
pub(crate) fn put_written(out: &impl Print, written: Result<usize, Refused>) {
    match written {
        Ok(count) => put_numbers(out, b"bytes", &[count as u64]),
        Err(refused) => put_refusal(out, refused),
    }
}

// The bytes that were written to the front of a buffer.
pub(crate) fn put_listing(out: &impl Print, written: Result<usize, Refused>, lines: &[u8]) {
    match written {
        Ok(count) => put(out, lines.get(..count).unwrap_or(b"")),
        Err(refused) => put_refusal(out, refused),
    }
}
