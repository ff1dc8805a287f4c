// Numbers and whole lines, written as bytes into a lent buffer.
#![tactic(auto)]

ghost use Rattle.std.specs.Prelude.{◌≡◌, ℕ, ◌+◌, ◌≤◌, length};
ghost use Rattle.digits.specs.Rows.{most_numbers, row_lines, rows_text, tab_rows};
ghost use Rattle.grammar.specs.Put.{put};
ghost use Rattle.rules.specs.Rooms.{tab_line};
ghost use Rattle.rules.specs.TableText.{digits_of, line_text};

// How many digits a number has: each line is counted before it is written.
pub fn width(n: u64) -> usize
    ensures { result ≡ length (digits_of n) }
{
    match n.checked_ilog10() {
        Some(power) => power as usize + 1,
        None => 1,
    }
}

// Fills a part with the digits of a number, from the last to the first.
fn fill(part: &mut [u8], n: u64)
    requires { length part.old ≡ length (digits_of n) }
    ensures { part.new ≡ digits_of n }
{
    let mut rest = n;
    for place in (0..part.len()).rev() {
        part[place] = b'0' + (rest % 10) as u8;
        rest /= 10;
    }
}

// Writes the digits of a number at a place, and hands back the place behind them.
pub fn put_number(out: &mut [u8], at: usize, n: u64) -> usize
    requires { at + length (digits_of n) ≤ length out.old }
    ensures { (result ≡ at + length (digits_of n)) × (out.new ≡ put out.old at (digits_of n)) }
{
    let end = at + width(n);
    fill(&mut out[at..end], n);
    end
}

// How many bytes a line of these numbers has, whatever its letter.
pub fn line_length(numbers: &[u64]) -> usize
    requires { length numbers.now ≤ most_numbers }
    ensures { (letter : ℕ) → result ≡ length (line_text letter numbers.now) }
{
    let mut bytes: usize = 2;
    for n in numbers {
        bytes += 1 + width(*n);
    }
    bytes
}

// Writes a line at a place, its letter, each number behind a tab, the line feed, and hands back the place behind it.
pub fn put_line(out: &mut [u8], at: usize, letter: u8, numbers: &[u64]) -> usize
    requires { at + length (line_text letter numbers.now) ≤ length out.old }
    ensures { (result ≡ at + length (line_text letter numbers.now))
        × (out.new ≡ put out.old at (line_text letter numbers.now)) }
{
    out[at] = letter;
    let mut next = at + 1;
    for n in numbers {
        out[next] = b'\t';
        next = put_number(out, next + 1, *n);
    }
    out[next] = b'\n';
    next + 1
}

// How many bytes the lines of these numbers have, so many numbers to a line, whatever their letter.
pub fn rows_length(numbers: &[u64], fields: usize) -> usize
    requires { (1 ≤ fields) × (length numbers.now ≤ most_numbers) }
    ensures { (letter : ℕ) → result ≡ length (row_lines letter fields numbers.now) }
{
    let mut bytes: usize = 0;
    for line in numbers.chunks_exact(fields) {
        bytes += line_length(line);
    }
    bytes
}

// Writes a tab line at a place, and hands back the place behind it: the digits of its first number, then a line of the others,
// which has the last of these digits, where it stands, for its letter.
fn put_tab_line(out: &mut [u8], at: usize, numbers: &[u64]) -> usize
    requires { (1 ≤ length numbers.now) × (at + length (tab_line numbers.now) ≤ length out.old) }
    ensures { (result ≡ at + length (tab_line numbers.now))
        × (out.new ≡ put out.old at (tab_line numbers.now)) }
{
    let last = put_number(out, at, numbers[0]) - 1;
    let digit = out[last];
    put_line(out, last, digit, &numbers[1..])
}

// How many bytes the tab lines of these numbers have, so many numbers to a line. A line of a letter has that letter and a tab more.
pub fn tab_rows_length(numbers: &[u64], fields: usize) -> usize
    requires { (1 ≤ fields) × (length numbers.now ≤ most_numbers) }
    ensures { result ≡ length (tab_rows fields numbers.now) }
{
    rows_length(numbers, fields) - 2 * (numbers.len() / fields)
}

// Writes lines at a place, so many numbers to a line, and hands back the place behind them: lines of a letter, or tab lines
// where there is none.
pub fn put_rows(
    out: &mut [u8],
    at: usize,
    letter: Option<u8>,
    numbers: &[u64],
    fields: usize,
) -> usize
    requires { (1 ≤ fields) × (at + length (rows_text letter fields numbers.now) ≤ length out.old) }
    ensures { (result ≡ at + length (rows_text letter fields numbers.now))
        × (out.new ≡ put out.old at (rows_text letter fields numbers.now)) }
{
    let mut next = at;
    for row in numbers.chunks_exact(fields) {
        next = match letter {
            Some(letter) => put_line(out, next, letter, row),
            None => put_tab_line(out, next, row),
        };
    }
    next
}
