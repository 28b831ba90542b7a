// Answers cases from standard input, one after the other: a line `ENTRY LENGTH` or `ENTRY LENGTH ROOM`, for `n` `n LENGTH POSITION`, for `k`
// `k LENGTH NUMBER [LIST [ROWS]]`, for `s` `s LENGTH [ROWS [RANGES]]`, then LENGTH bytes.
#![tactic(auto)]

ghost use Rattle.std.specs.Prelude.{◌<◌};

use programs::Out;

const STDIN_FILENO: i32 = 0;

// More cases than anyone keeps.
const MOST_CASES: usize = 1000000;

// More room than any case asks for.
const ENOUGH: u64 = 1000000;

// More rows than any case asks room for.
const MOST_ROWS: usize = 10240;

// More ranges than any case asks room for.
const MOST_RANGES: usize = 1024;

// More bytes than any case has.
const MOST_BYTES: usize = 131072;

// What is left of a case's line: its numbers. A byte behind each is taken too.
#[derive(Clone, Copy)]
struct Numbers {
    behind: u8,
}

impl Iterator for Numbers {
    type Item = u64;

    fn next(&mut self) -> Option<u64> {
        if self.behind == b'\n' {
            return None;
        }
        let read = decimals::figure();
        self.behind = read.behind;
        Some(read.value)
    }
}

// The numbers behind a case's length: the room, the position or the constant's number; the room of its list or its ranges; that of a constant's rows.
// Enough where the line has ended.
#[derive(Clone, Copy)]
struct Line {
    first: u64,
    second: u64,
    rows: u64,
}

impl From<Numbers> for Line {
    fn from(mut numbers: Numbers) -> Line {
        let mut next = || numbers.next().unwrap_or(ENOUGH);
        Line {
            first: next(),
            second: next(),
            rows: next(),
        }
    }
}

// The part of a table that a case gives: so many of its lines, and some numbers behind them that are no line.
fn lent<'t>(table: &'t mut [u64], width: usize, room: u64, source: &[u8]) -> &'t mut [u64]
    requires { 0 < width }
{
    let behind = source.len() % width;
    let size = (room as usize)
        .saturating_mul(width)
        .saturating_add(behind)
        .min(table.len());
    &mut table[..size]
}

// A constant, with a list of so many instructions.
fn constant(to: &mut Out, source: &[u8], line: Line, table: &mut [u64]) {
    let mut list = [0u64; machine::MOST * machine::WIDTH];
    let list = lent(&mut list, machine::WIDTH, line.second, source);
    let rows = lent(table, rows::WIDTH, line.rows, source);
    print::constant::answer(to, source, line.first, rows, list);
}

// A broken source, with so many ranges.
fn salvaged(to: &mut Out, source: &mut [u8], line: Line, table: &mut [u64]) {
    let mut ranges = [0u64; MOST_RANGES * salvage::WIDTH];
    let ranges = lent(&mut ranges, salvage::WIDTH, line.second, source);
    let rows = lent(table, rows::WIDTH, line.first, source);
    print::answer_salvage(to, source, rows, ranges);
}

// The print of a source, in a text of so many bytes.
fn printed(to: &mut Out, source: &[u8], room: usize, table: &mut [u64]) {
    let mut plan = [0u64; MOST_ROWS * setter::PLAN_WIDTH];
    print::answer_print(to, source, table, &mut plan, room);
}

// Entries: `a` source to tree, `b` to one expression, `c` to token list, `e` a string token decoded, `f` the number of a float,
// `k` a constant, `n` the leaf that holds a byte, `p` the print of a source, `s` a broken source salvaged, `t` a file checked, `w` the file
// of a source.
fn answer(to: &mut Out, entry: u8, source: &mut [u8], line: Line, table: &mut [u64]) {
    let room = line.first as usize;
    match entry {
        b'a' => {
            let rows = lent(table, rows::WIDTH, line.first, source);
            print::answer_tree(to, source, rows, false);
        }
        b'b' => {
            let rows = lent(table, rows::WIDTH, line.first, source);
            print::answer_expression(to, source, rows, false);
        }
        b'c' => {
            print::answer_tokens(to, source, room, false);
        }
        b'e' => print::answer_decode(to, source, room),
        b'f' => print::answer_float(to, source),
        b'k' => constant(to, source, line, table),
        b'n' => print::answer_node(to, decimals::numbers(source, table), line.first),
        b'p' => printed(to, source, room, table),
        b's' => salvaged(to, source, line, table),
        b't' => {
            print::answer_check(to, source, table);
        }
        b'w' => print::answer_write(to, source, table, room),
        _ => {}
    }
}

// Answers the next case, if there is one and the buffer holds it.
fn case(to: &mut Out, buffer: &mut [u8], table: &mut [u64]) -> Option<()> {
    let entry = decimals::next_byte();
    if entry == b'\n' {
        return None;
    }
    decimals::next_byte();
    let first = decimals::figure();
    let length = first.value as usize;
    let line = Line::from(Numbers {
        behind: first.behind,
    });
    let source = buffer.get_mut(..length)?;
    let count = io::read_full(STDIN_FILENO, source);
    if count < length {
        return None;
    }
    answer(to, entry, source, line, table);
    to.print("\n");
    Some(())
}

fn main(rt: HostRuntime) {
    let mut buffer = [0u8; MOST_BYTES];
    let mut table = [0u64; MOST_ROWS * rows::WIDTH];
    let mut out = Out::new(rt.stdout());
    for _ in 0..MOST_CASES {
        if case(&mut out, &mut buffer, &mut table).is_none() {
            return;
        }
    }
}
