// The calls that are lent a buffer, with as many places as they need and with one fewer.
use crate::plan::{PLACES, plan_into_places};
use crate::report::{put, put_part_name, put_written};
use rules::{Refused, Table};

const MARK: u8 = b'.';

const BYTES: usize = 64;

// A call, with so many places of a buffer: the answer and the whole buffer. How many bytes were written, 0 where refused.
fn in_places<F: Fn(&mut [u8]) -> Result<usize, Refused>>(
    out: &impl Print,
    places: usize,
    call: &F,
) -> usize
    requires { F.IsAlwaysCallable call.now }
{
    if places > BYTES {
        return 0;
    }
    let mut buffer = [MARK; BYTES];
    let written = call(&mut buffer[..places]);
    put_written(out, written);
    put(out, &buffer);
    put(out, b"\n");
    written.unwrap_or(0)
}

// A call with all places, with as many as it needs and with one fewer.
fn in_few_places<F: Fn(&mut [u8]) -> Result<usize, Refused>>(out: &impl Print, call: F)
    requires { F.IsAlwaysCallable call }
{
    let needed = in_places(out, BYTES, &call);
    if needed > 0 {
        in_places(out, needed, &call);
        in_places(out, needed - 1, &call);
    }
}

pub(crate) fn each_call(out: &impl Print, text: &[u8]) {
    let table = reader::read(text).unwrap_or(Table::without_records());
    put_part_name(out, b"plan_into, 64 and 64 places, 63 and 70, 70 and 63");
    plan_into_places(out, table, table.budget, 64, 64);
    plan_into_places(out, table, table.budget, 63, PLACES);
    plan_into_places(out, table, table.budget, PLACES, 63);
    put_part_name(out, b"list, 64 places, as many as it needs, one fewer");
    in_few_places(out, |lent| listing::list(text, lent));
    put_part_name(out, b"write, 64 places, as many as it needs, one fewer");
    in_few_places(out, |lent| writer::write(table, lent));
}
