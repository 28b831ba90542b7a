// Answers as lines of text on standard output, in document 01's form. The first argument is where they are written, and remembers a failure.
#![tactic(auto)]

use chars::{Answer, refusal};
use programs::Out;
use reader::entries;
use setter::entries::Printed;
use std::fmt;
use tokens::Cursor;

pub mod constant;
mod names;
mod table_rows;

// Numbers with blanks between.
#[derive(Clone, Copy)]
struct Numbers<'a>(&'a [u64]);

impl fmt::Display for Numbers<'_> {
    fn fmt<W: fmt::Write>(&self, f: &mut fmt::Formatter<W>) -> fmt::Result {
        f.write_joined(self.0.iter(), " ")
    }
}

// A text on one line: a blank for each byte that isn't shown.
fn one_line(to: &mut Out, text: &[u8]) {
    for b in text {
        to.say(&[(*b).max(b' ')]);
    }
}

fn accepted(to: &mut Out, first: u64, second: u64) {
    to.print(format_args!("accepted {first} {second}\n"));
}

fn refused(to: &mut Out, number: u64, start: usize, end: usize) {
    to.print(format_args!("refused {number} {start} {end}\n"));
}

// `accepted COUNT`, or `refused NUMBER START END`, and for 10 the count needed.
fn head(to: &mut Out, a: Answer) {
    match a.number {
        refusal::NONE => to.print(format_args!("accepted {}\n", a.count)),
        refusal::NO_ROOM => to.print(format_args!(
            "refused {} {} {} {}\n",
            a.number, a.start, a.end, a.count
        )),
        _ => refused(to, a.number, a.start, a.end),
    }
}

// A token: its code, start and end; or the name of its code, and its text behind them.
fn token_line(to: &mut Out, s: &[u8], code: u64, start: usize, end: usize, named: bool) {
    if named {
        to.print(format_args!("{} {start} {end} ", names::code_name(code)));
        text_line(to, s, start, end);
    } else {
        to.print(format_args!("{code} {start} {end}\n"));
    }
}

// The tokens from the start on, a line each.
fn token_lines(to: &mut Out, s: &[u8], count: usize, named: bool) {
    let mut cursor = Cursor::new();
    for _ in 0..count {
        let Ok((word, start, next)) = cursor.step(s) else {
            return;
        };
        token_line(to, s, tokens::code_of(word), start, next.at, named);
        cursor = next;
    }
}

// (c): the answer, and the tokens where it accepts. Here and below: whether it does.
pub fn answer_tokens(to: &mut Out, s: &[u8], room: usize, named: bool) -> bool {
    let a = tokens::count_tokens(s, room);
    head(to, a);
    if a.number == refusal::NONE {
        token_lines(to, s, a.count, named);
        return true;
    }
    false
}

// The first bytes of a buffer, if there are some, as one line of hex, two digits each.
fn hex_line(to: &mut Out, out: &[u8], count: usize) {
    let Some([first, rest @ ..]) = out.get(..count) else {
        return;
    };
    to.print(format_args!("{first:02x}"));
    for b in rest {
        to.print(format_args!("{b:02x}"));
    }
    to.print("\n");
}

// The answer, and where it accepts some bytes, those first in a buffer.
fn answer_bytes(to: &mut Out, a: Answer, out: &[u8]) {
    head(to, a);
    if a.number == refusal::NONE {
        hex_line(to, out, a.count);
    }
}

// A buffer with no more room than is asked for.
fn within(buffer: &mut [u8], room: usize) -> &mut [u8] {
    let size = room.min(buffer.len());
    &mut buffer[..size]
}

// (e): the answer, and the decoded bytes where it accepts some. No token decodes to more bytes than the buffer has.
pub fn answer_decode(to: &mut Out, s: &[u8], room: usize) {
    let mut buffer = io::large_buffer();
    let out = within(&mut buffer, room);
    let a = strings::decode(s, out);
    answer_bytes(to, a, out);
}

// A row: its seven numbers.
fn row_line(to: &mut Out, row: &[u64]) {
    to.print(format_args!("{}\n", Numbers(row)));
}

// The rows from the front on, a line each, as far as the table reaches.
fn row_lines(to: &mut Out, table: &[u64], count: usize) {
    for row in table.chunks_exact(rows::WIDTH).take(count) {
        row_line(to, row);
    }
}

fn answer_rows(to: &mut Out, s: &[u8], a: Answer, table: &mut [u64], named: bool) -> bool {
    head(to, a);
    if a.number != refusal::NONE {
        return false;
    }
    if named {
        names::tree_lines(to, s, table, a.count);
    } else {
        row_lines(to, table, a.count);
    }
    true
}

// (a): the answer, and the rows where it accepts, by their numbers or as a tree with names.
pub fn answer_tree(to: &mut Out, s: &[u8], table: &mut [u64], named: bool) -> bool {
    let a = entries::tree(s, table);
    answer_rows(to, s, a, table, named)
}

// (b): likewise.
pub fn answer_expression(to: &mut Out, s: &[u8], table: &mut [u64], named: bool) -> bool {
    let a = entries::expression(s, table);
    answer_rows(to, s, a, table, named)
}

// The number of a float literal: `accepted WIDTH BITS`, or the refusal.
pub fn answer_float(to: &mut Out, t: &[u8]) {
    let a = literals::float(t);
    if a.number == refusal::NONE {
        accepted(to, a.width, a.bits);
    } else {
        refused(to, a.number, a.start, a.end);
    }
}

// Where a leaf was found: `accepted INDEX START END`, or the refusal.
fn node_line(to: &mut Out, a: Answer) {
    if a.number == refusal::NONE {
        to.print(format_args!("accepted {} {} {}\n", a.count, a.start, a.end));
    } else {
        refused(to, a.number, a.start, a.end);
    }
}

// C-15: the last leaf of a table that holds a byte.
pub fn answer_node(to: &mut Out, table: &[u64], position: u64) {
    let a = nodes::node_at(table, position);
    node_line(to, a);
}

// The bytes between two places as a line.
fn text_line(to: &mut Out, s: &[u8], start: usize, end: usize) {
    if let Some(text) = s.get(start..end) {
        to.say(text);
    }
    to.print("\n");
}

// The last leaf of a source's rows that holds a byte, its row and its text.
fn leaf(to: &mut Out, s: &[u8], table: &[u64], position: u64) -> bool {
    let a = nodes::node_at(table, position);
    node_line(to, a);
    if a.number != refusal::NONE {
        return false;
    }
    if let Some(row) = table.chunks_exact(rows::WIDTH).nth(a.count) {
        row_line(to, row);
    }
    text_line(to, s, a.start, a.end);
    true
}

// (a), and of its rows the last leaf that holds a byte.
pub fn answer_leaf(to: &mut Out, s: &[u8], table: &mut [u64], position: u64) -> bool {
    let a = entries::tree(s, table);
    if a.number != refusal::NONE {
        head(to, a);
        return false;
    }
    match table.get(..a.count.saturating_mul(rows::WIDTH)) {
        Some(all) => leaf(to, s, all, position),
        None => false,
    }
}

// C-21: a file checked: `accepted ROWS TESTS`, or the refusal.
pub fn answer_check(to: &mut Out, file: &[u8], table: &mut [u64]) -> bool {
    let a = sheets::check(file, table);
    if a.number == refusal::NONE {
        accepted(to, a.count as u64, a.tests as u64);
        return true;
    }
    head(
        to,
        Answer {
            number: a.number,
            start: a.start,
            end: a.end,
            count: a.count,
        },
    );
    false
}

// C-21: the answer, and the file of a source where it accepts, as far as the buffer reaches.
pub fn answer_write(to: &mut Out, s: &[u8], table: &mut [u64], room: usize) {
    let mut buffer = io::large_buffer();
    let file = within(&mut buffer, room);
    let a = sheets::write(s, table, file);
    answer_bytes(to, a, file);
}

// C-21: the file of a source itself, or the refusal.
pub fn answer_file(to: &mut Out, s: &[u8], table: &mut [u64], file: &mut [u8]) -> bool {
    let a = sheets::write(s, table, file);
    if a.number != refusal::NONE {
        head(to, a);
        return false;
    }
    match file.get(..a.count) {
        Some(written) => {
            to.say(written);
            true
        }
        None => false,
    }
}

// The dropped ranges from the front on, a line each, as far as the table reaches: its ends, and its refusal's number and place.
fn range_lines(to: &mut Out, ranges: &[u64], count: usize) {
    for range in ranges.chunks_exact(salvage::WIDTH).take(count) {
        to.print(format_args!("range {}\n", Numbers(range)));
    }
}

// C-23: a broken source salvaged: `accepted ROWS RANGES`, the dropped ranges and the rows; or the refusal.
pub fn answer_salvage(to: &mut Out, s: &mut [u8], table: &mut [u64], ranges: &mut [u64]) {
    let a = salvage::salvage(s, table, ranges);
    if a.number == refusal::NONE {
        accepted(to, a.count as u64, a.ranges as u64);
        range_lines(to, ranges, a.ranges);
        row_lines(to, table, a.count);
        return;
    }
    head(
        to,
        Answer {
            number: a.number,
            start: a.start,
            end: a.end,
            count: a.count,
        },
    );
}

// C-20: `accepted COUNT TESTS` and the text as hex if it has bytes; or the refusal.
fn answer_printed(to: &mut Out, a: Printed, text: &[u8]) {
    if a.number == refusal::NONE {
        accepted(to, a.count as u64, a.tests as u64);
        hex_line(to, text, a.count);
        return;
    }
    head(
        to,
        Answer {
            number: a.number,
            start: a.start,
            end: a.end,
            count: a.count,
        },
    );
}

// C-20: the print of a source, as far as the buffer reaches.
pub fn answer_print(to: &mut Out, s: &[u8], table: &mut [u64], plan: &mut [u64], room: usize) {
    let mut buffer = io::large_buffer();
    let text = within(&mut buffer, room);
    let a = setter::entries::print_tree(s, table, plan, text);
    answer_printed(to, a, text);
}
