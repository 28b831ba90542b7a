// The entry point of C-20: one way of writing a filter.
ghost use Rattle.std.specs.Prelude.{◌≡◌, ◌≤◌, ◌*◌, length, replicate};
ghost use Rattle.roundtrip.specs.Prints.{Prints};
ghost use Rattle.setter.specs.Steps.{Standing, Short, BackFor, tests_at, Spoken, JudgedFor, Set, answer_of};

use super::{PLAN_WIDTH, write};
use chars::{Answer, MOST_BYTES, refusal};
use reader::entries::old_tree;
use rows::{WIDTH, kind};
use sink::Sink;

// The answer: number, place, how many bytes the print has, and how many rows are tests.
#[derive(Clone, Copy, Debug, PartialEq, Eq)]
pub struct Printed {
    pub number: u64,
    pub start: usize,
    pub end: usize,
    pub count: usize,
    pub tests: usize,
}

fn with_tests(a: Answer, tests: usize) -> Printed
    ensures { (answer_of result ≡ a) × (result.tests ≡ tests) }
{
    Printed {
        number: a.number,
        start: a.start,
        end: a.end,
        count: a.count,
        tests,
    }
}

fn no_room(count: usize) -> Answer
    ensures { result ≡ record { number = 10; start = 0; end = 0; count = count } }
{
    Answer {
        number: refusal::NO_ROOM,
        start: 0,
        end: 0,
        count,
    }
}

// How many of the first rows are tests.
fn tests(table: &[u64], rows: usize) -> usize
    requires { rows * 7 ≤ length table.now }
    ensures { result ≡ tests_at table.now rows }
{
    let mut count = 0;
    for i in 0..rows {
        if table[i * WIDTH] == kind::TEST {
            count += 1;
        }
    }
    count
}

fn clear(text: &mut [u8])
    ensures { text.new ≡ replicate (length text.old) 0 }
{
    text.fill(0);
}

fn zeros() -> [u8; MOST_BYTES]
    ensures { result ≡ replicate 65535 0 }
{
    [0; MOST_BYTES]
}

// What reading the print says, with no room for its rows.
fn read_back(s: &[u8], rows: &[u64], count: usize, plan: &mut [u64]) -> Answer
    requires standing { Standing s.now rows.now count }
    requires short { Short s.now rows.now count }
    requires count_in_bounds { count * 4 ≤ length plan.old }
    ensures { BackFor s.now rows.now count result }
{
    let mut copy = zeros();
    let sink = write(s, rows, count, plan, &mut copy);
    let mut none: [u64; 0] = [0; 0];
    old_tree(&copy[..sink.at], &mut none)
}

// What is said of a print that was written: 1, then 9, then 10 for a text of so many bytes.
fn judged(s: &[u8], rows: &[u64], count: usize, plan: &mut [u64], sink: Sink, room: usize) -> Answer
    requires standing { Standing s.now rows.now count }
    requires count_in_bounds { count * 4 ≤ length plan.old }
    requires spoken { Spoken s.now rows.now count sink }
    ensures { JudgedFor s.now rows.now count room result }
{
    if MOST_BYTES < sink.at {
        return Answer {
            number: refusal::TOO_LONG,
            start: MOST_BYTES,
            end: MOST_BYTES,
            count: 0,
        };
    }
    let back = read_back(s, rows, count, plan);
    if back.number == refusal::TOO_DEEP {
        return back;
    }
    if room < sink.at {
        return no_room(sink.at);
    }
    Answer {
        number: refusal::NONE,
        start: 0,
        end: s.len(),
        count: sink.at,
    }
}

// The print of so many rows in a text of zeros.
fn set_rows(s: &[u8], rows: &[u64], count: usize, plan: &mut [u64], text: &mut [u8]) -> Printed
    requires standing { Standing s.now rows.now count }
    requires count_in_bounds { count * 4 ≤ length plan.old }
    requires text_value { text.old ≡ replicate (length text.old) 0 }
    ensures { Set s.now rows.now count (length text.old) text.new result }
{
    let sink = write(s, rows, count, plan, text);
    let a = judged(s, rows, count, plan, sink, text.len());
    if a.number == refusal::NONE {
        return with_tests(a, tests(rows, count));
    }
    with_tests(a, 0)
}

fn refused(a: Answer, rows: &mut [u64], plan: &mut [u64], text: &mut [u8]) -> Printed
    ensures { (answer_of result ≡ a) × (result.tests ≡ 0) × (rows.new ≡ replicate (length rows.old) 0) × (plan.new ≡ replicate (length plan.old) 0) × (text.new ≡ replicate (length text.old) 0) }
{
    rows::clear(rows, 0);
    rows::clear(plan, 0);
    clear(text);
    with_tests(a, 0)
}

// The print of a source's tree, by the grammar in which `test` is a declaration; with tables for its rows and for what waits to be written.
pub fn print_tree(s: &[u8], rows: &mut [u64], plan: &mut [u64], text: &mut [u8]) -> Printed
    ensures { Prints s.now (length rows.old) (length plan.old) (length text.old) (answer_of result) result.tests rows.new plan.new text.new }
{
    let read = old_tree(s, rows);
    if read.number != refusal::NONE {
        return refused(read, rows, plan, text);
    }
    if plan.len() / PLAN_WIDTH < read.count {
        return refused(no_room(read.count), rows, plan, text);
    }
    clear(text);
    let set = set_rows(s, rows, read.count, plan, text);
    if set.number != refusal::NONE {
        let a = Answer {
            number: set.number,
            start: set.start,
            end: set.end,
            count: set.count,
        };
        return refused(a, rows, plan, text);
    }
    rows::clear(plan, 0);
    set
}
