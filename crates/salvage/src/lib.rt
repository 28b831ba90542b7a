// C-23, salvage a broken file: what is refused is dropped, up to the next line that begins as a declaration does, and the rest is read.
#![tactic(auto)]

ghost use Rattle.std.specs.Prelude.{◌≡◌, false, cond, ◌+◌, ◌*◌, ◌/◌, ◌≤◌, ◌<◌, ltb, length};
ghost use Rattle.rows.specs.Rows.{width};
ghost use Rattle.tokens.specs.Words.{name_word};
ghost use Rattle.tokens.specs.Rules.{name_at};
ghost use Rattle.grammar.specs.Grammar.{one_of};
ghost use Rattle.parser.specs.Places.{start_of};
ghost use Rattle.parser.specs.Going.{Stands};
ghost use Rattle.salvage.specs.Salvage.{line_words, is_line_word, line_at, next_line, blanked};
ghost use Rattle.salvage.specs.Answers.{Salvages};
ghost use Rattle.salvage.specs.Steps.{noted, Left, answer_of, Keeps};
ghost use Rattle.salvage.specs.Rows.{part_from, freshly, Declares, broken_by, Upto, Reaches, Through, Treed};

use chars::{Answer, refusal};
use entry::{counted, refused};
use parser::{Here, Limits, Read, look, plain_row, unusable};
use reader::declarations::declaration;
use rows::kind;
use tokens::{Cursor, Refusal, word};
use words::begins_declaration;

// The numbers of a range: its first byte and its end, and its refusal's number and place.
pub const WIDTH: usize = 5;

const NEWLINE: u16 = 10;

const UNDERSCORE: u16 = 95;

const SPACE: u8 = 32;

// The answer: number, place, how many rows, and how many ranges.
#[derive(Clone, Copy, Debug, PartialEq, Eq)]
pub struct Salvaged {
    pub number: u64,
    pub start: usize,
    pub end: usize,
    pub count: usize,
    pub ranges: usize,
}

fn is_line_word(t: &[u8]) -> bool
    ensures { result ≡ one_of (name_word t.now) line_words }
{
    chars::same(t, b"const")
        | chars::same(t, b"fn")
        | chars::same(t, b"import")
        | chars::same(t, b"filter")
        | chars::same(t, b"filtermap")
}

// The whole word at a place is one that a kept line begins with.
fn word_at(s: &[u8], at: usize) -> bool
    requires { at < length s.now }
    ensures { result ≡ is_line_word (name_at s.now at) }
{
    let b = chars::byte_at(s, at);
    if chars::is_letter(b) | (b == UNDERSCORE) {
        let end = chars::past_name(s, at);
        return is_line_word(&s[at..end]);
    }
    false
}

// Such a line begins at a place: no word is looked at where no line begins.
fn line_at(s: &[u8], at: usize) -> bool
    requires { at < length s.now }
    ensures { result ≡ line_at s.now at }
{
    if at == 0 {
        return word_at(s, at);
    }
    if chars::byte_at(s, at - 1) == NEWLINE {
        return word_at(s, at);
    }
    false
}

// The first such line from a place on, or the end.
fn next_line(s: &[u8], from: usize) -> usize
    ensures { result ≡ next_line s.now from }
{
    for i in from..s.len() {
        if line_at(s, i) {
            return i;
        }
    }
    s.len()
}

// The bytes of a range become spaces.
fn blank(s: &mut [u8], from: usize, to: usize)
    requires { (from ≤ to) × (to ≤ length s.old) }
    ensures { s.new ≡ blanked s.old from to }
{
    s[from..to].fill(SPACE);
}

// Range n, where there is room for it.
fn note(ranges: &mut [u64], n: usize, start: usize, end: usize, why: Refusal)
    ensures { ranges.new ≡ noted ranges.old n start end why }
{
    if n < ranges.len() / WIDTH {
        let at = n * WIDTH;
        ranges[at] = start as u64;
        ranges[at + 1] = end as u64;
        ranges[at + 2] = why.number;
        ranges[at + 3] = why.start as u64;
        ranges[at + 4] = why.end as u64;
    }
}

// Where the search for the line behind a range begins.
fn search_from(first: usize, start: usize) -> usize
    requires { first < 65536 }
    ensures { result ≡ cond (ltb first start) start (first + 1) }
{
    if first < start {
        return start;
    }
    first + 1
}

// Where the table goes on behind so many rows: at its end, where it has no room for them.
fn part_from(size: usize, rows: usize) -> usize
    ensures { result ≡ part_from size rows }
{
    if rows <= size / rows::WIDTH {
        return rows * rows::WIDTH;
    }
    size
}

// A declaration whose rows go behind so many: what it leaves there if it is refused stands behind them too.
fn declare(s: &[u8], table: &mut [u64], here: Here, rows: usize) -> Read
    requires { Stands s.now here }
    ensures { Declares s.now here table.old rows result table.new }
{
    let from = part_from(table.len(), rows);
    declaration(s, &mut table[from..], here, Limits::all())
}

// The same place, with no row written.
fn afresh(here: Here) -> Here
    ensures { result ≡ freshly here }
{
    let step = here.step;
    Here {
        step,
        place: here.place,
        rows: 0,
    }
}

fn start_of(here: Here) -> usize
    ensures { result ≡ start_of here }
{
    match here.step {
        Ok((_, start, _)) => start,
        Err(why) => why.start,
    }
}

// Where what is read here begins, and why it is none, if it is refused.
fn broken_by(here: Here, read: Read) -> Option<(usize, Refusal)>
    ensures { result ≡ broken_by here read }
{
    let Err(why) = read else {
        return None;
    };
    Some((start_of(here), why))
}

// How many rows and declarations are kept, and from which byte on there is none, with the refusal that is met in it.
#[derive(Clone, Copy, Debug, PartialEq, Eq)]
struct Reached {
    rows: usize,
    children: u64,
    end: Option<(usize, Refusal)>,
}

// Declarations from a place on, behind so many rows of so many others.
fn read_on(s: &[u8], table: &mut [u64], at: usize, before: usize, others: u64) -> Reached
    requires { (length s.now ≤ 65535) × Upto s.now at table.old before others }
    ensures { Reaches s.now at table.old result.rows result.children result.end table.new }
{
    let mut here = look(s, Cursor { at }, 0);
    let mut rows = before;
    let mut children = others;
    while begins_declaration(here.word(), false) {
        let r = declare(s, table, here, rows);
        let Ok((_, next)) = r else {
            return Reached {
                rows,
                children,
                end: broken_by(here, r),
            };
        };
        rows += next.rows;
        children += 1;
        here = afresh(next);
    }
    if here.word() != word::NONE {
        return Reached {
            rows,
            children,
            end: broken_by(here, unusable(here)),
        };
    }
    Reached {
        rows,
        children,
        end: None,
    }
}

// How many rows and declarations are kept, and how many ranges are dropped.
#[derive(Clone, Copy, Debug, PartialEq, Eq)]
struct Totals {
    rows: usize,
    children: u64,
    ranges: usize,
}

// Reads what is whole and drops what is broken, up to the end.
fn drop_broken(s: &mut [u8], table: &mut [u64], ranges: &mut [u64]) -> Totals
    requires { (length s.old ≤ 65535) × (length table.old / width * width ≡ length table.old) }
    ensures { Left s.old ranges.old s.new ranges.new result.ranges × Through s.new table.new result.rows result.children × (length table.new ≡ length table.old) }
{
    let mut at = 0;
    let mut rows = 0;
    let mut children = 0;
    let mut count = 0;
    loop {
        let r = read_on(s, table, at, rows, children);
        rows = r.rows;
        children = r.children;
        let Some((first, why)) = r.end else {
            return Totals {
                rows,
                children,
                ranges: count,
            };
        };
        let line = next_line(s, search_from(first, why.start));
        note(ranges, count, first, line, why);
        blank(s, first, line);
        at = line;
        count += 1;
    }
}

// The rows of what is kept and the tree's behind them, in the part of the table that rows have.
fn read_kept(s: &mut [u8], table: &mut [u64], ranges: &mut [u64]) -> Totals
    requires { (length s.old ≤ 65535) × (length table.old / width * width ≡ length table.old) }
    ensures { Left s.old ranges.old s.new ranges.new result.ranges × Treed s.new table.old table.new result.rows }
{
    let kept = drop_broken(s, table, ranges);
    let row = plain_row(kind::TREE, 0, s.len(), kept.children);
    rows::put(table, kept.rows, row, (kept.rows + 1) as u64);
    kept
}

fn with_ranges(a: Answer, ranges: usize) -> Salvaged
    ensures { (answer_of result ≡ a) × (result.ranges ≡ ranges) }
{
    Salvaged {
        number: a.number,
        start: a.start,
        end: a.end,
        count: a.count,
        ranges,
    }
}

// Rows are counted before ranges. A refusal leaves zeros in both tables.
fn kept(table: &mut [u64], ranges: &mut [u64], read: Answer, count: usize) -> Salvaged
    ensures { Keeps table.old ranges.old read count (answer_of result) result.ranges table.new ranges.new }
{
    if read.number == refusal::NONE {
        if count <= ranges.len() / WIDTH {
            rows::clear(ranges, count * WIDTH);
            return with_ranges(read, count);
        }
        rows::clear(table, 0);
        rows::clear(ranges, 0);
        let many = Answer {
            number: refusal::NO_ROOM,
            start: 0,
            end: 0,
            count,
        };
        return with_ranges(many, 0);
    }
    rows::clear(table, 0);
    rows::clear(ranges, 0);
    with_ranges(read, 0)
}

// The rows of what is left when each range that is broken is replaced by spaces, in the lent source itself, and the ranges.
pub fn salvage(s: &mut [u8], table: &mut [u64], ranges: &mut [u64]) -> Salvaged
    ensures { Salvages false s.old (length table.old) (length ranges.old) (answer_of result) result.ranges s.new table.new ranges.new }
{
    match tokens::check_source(s) {
        Err(why) => {
            rows::clear(ranges, 0);
            with_ranges(refused(table, why), 0)
        }
        Ok(()) => {
            let whole = table.len() / rows::WIDTH * rows::WIDTH;
            let all = read_kept(s, &mut table[..whole], ranges);
            let read = counted(table, s.len(), all.rows + 1);
            kept(table, ranges, read, all.ranges)
        }
    }
}
