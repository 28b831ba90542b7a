// Tables from other tools: a file of a source, its rows and the rows of its declarations by index; checked, and written.
#![tactic(auto)]

ghost use Rattle.std.specs.Prelude.{◌≡◌, ◌≢◌, List, ◌++◌, true, false, ◌&&◌, ℕ, ◌+◌, ◌*◌, ◌/◌, ◌≤◌, ◌<◌, ltb, eqb, length, take, drop, MatchOption};
ghost use Rattle.std.specs.Bool.{then_some};
ghost use Rattle.std.proofs.lemmas.List.Edits.{sets};
ghost use Rattle.rows.specs.Kinds.{TEST};
ghost use Rattle.rows.specs.Rows.{width, zeroed};
ghost use Rattle.grammar.specs.Rows.{Row, flat};
ghost use Rattle.sheets.specs.Files.{words, written};
ghost use Rattle.sheets.specs.Places.{number_at, numbers_at, indexes_place, filled};
ghost use Rattle.sheets.specs.Checks.{differing, refusing, of_kind, room_for, Checks};
ghost use Rattle.sheets.specs.Writes.{file_for, sized, Writes};
ghost use Rattle.sheets.specs.Steps.{placeless, Section, Parsed, rows_in, indexes_in, NONE, Against, Compared, First};
ghost use Rattle.sheets.specs.Walks.{Tabled};

use chars::{Answer, refusal};
use declarations::Declarations;
use endian::{LONG, SHORT, long_at, put, put_long, put_short, short_at};
use reader::entries;
use rows::{WIDTH, kind};

mod declarations;
mod endian;

// The sections don't fill the file exactly.
pub const UNFILLED: u64 = 17;

// The first row that differs, is missing or is too many.
pub const WRONG_ROW: u64 = 18;

// The first such index.
pub const WRONG_INDEX: u64 = 19;

// No row differs, behind the rows of a table to compare with.
// kept: a number and no Option, since it stands in the lent table, and `rows::put` lowers what stands there.
const NONE: u64 = u64::MAX;

// The bytes of a row in a file.
const ROW: usize = WIDTH * LONG;

// The sections of a file: its source, the numbers of its rows, and its indexes.
#[derive(Clone, Copy)]
pub struct Sections<'a> {
    pub source: &'a [u8],
    pub rows: &'a [u8],
    pub indexes: &'a [u8],
}

// The answer to a file: number, place, how many rows, and how many of them are tests.
#[derive(Clone, Copy, Debug, PartialEq, Eq)]
pub struct Checked {
    pub number: u64,
    pub start: usize,
    pub end: usize,
    pub count: usize,
    pub tests: usize,
}

// What a section has behind its count, of so many bytes each, and what is behind the section.
fn section(file: &[u8], unit: usize) -> Option<(&[u8], &[u8])>
    requires { unit ≤ 56 }
    ensures { MatchOption result (length file.now < 4 + number_at 4 file.now 0 * unit) (λ p. Section file.now unit p.0.now p.1.now) }
{
    let (count, behind) = file.split_first_chunk()?;
    behind.split_at_checked(u32::from_le_bytes(*count) as usize * unit)
}

// Three sections, and nothing more.
fn parse(file: &[u8]) -> Option<Sections<'_>>
    ensures { MatchOption result (length file.now ≢ filled file.now) (λ p. Parsed file.now p.source.now p.rows.now p.indexes.now) }
{
    let (source, behind) = section(file, 1)?;
    let (rows, behind) = section(behind, ROW)?;
    let (indexes, behind) = section(behind, SHORT)?;
    if !behind.is_empty() {
        return None;
    }
    Some(Sections {
        source,
        rows,
        indexes,
    })
}

// So many of a file's numbers, first in the table.
// kept: no plainer as a zip of chunks, since a chunk is a slice, and a number is made of an array.
fn load(numbers: &[u8], table: &mut [u64], count: usize)
    requires { (count ≤ length table.old) × (count * 8 ≤ length numbers.now) }
    ensures { table.new ≡ numbers_at 8 numbers.now 0 count ++ drop count table.old }
{
    for i in 0..count {
        table[i] = long_at(numbers, i * LONG);
    }
}

// How many rows a lent table has room for, with one number behind them.
fn room(table: &[u64]) -> usize
    ensures { result ≡ room_for (length table.now) }
{
    table.len().saturating_sub(1) / WIDTH
}

// Reads a source against the first rows of the table: the number behind them becomes the first row that differs.
fn against(source: &[u8], table: &mut [u64], behind: usize) -> Answer
    requires { behind ≤ length table.old }
    ensures { Against source.now table.old behind result table.new }
{
    if behind < table.len() {
        table[behind] = NONE;
        let end = behind + 1;
        return entries::put_rows(source, &mut table[..end]);
    }
    entries::put_rows(source, &mut table[..behind])
}

// A refusal that has no place.
fn nowhere(number: u64, count: usize) -> Answer
    ensures { result ≡ placeless number count }
{
    Answer {
        number,
        start: 0,
        end: 0,
        count,
    }
}

fn differs(number: u64, i: usize) -> Answer
    requires { i < NONE }
    ensures { result ≡ differing number i }
{
    Answer {
        number,
        start: i,
        end: i + 1,
        count: 0,
    }
}

// The answer of (a) to a source, or 18: a file's rows are loaded into the table, and the reader compares as it goes.
fn compare(source: &[u8], rows: &[u8], table: &mut [u64]) -> Answer
    ensures { Compared source.now (rows_in rows.now) (length table.old) result table.new }
{
    let count = rows.len() / ROW;
    let most = room(table);
    let behind = count.min(most) * WIDTH;
    load(rows, table, behind);
    let read = against(source, table, behind);
    if read.number != refusal::NONE {
        return read;
    }
    if most < read.count {
        return nowhere(refusal::NO_ROOM, read.count);
    }
    let first = table[behind] as usize;
    if first < read.count {
        return differs(WRONG_ROW, first);
    }
    if read.count < count {
        return differs(WRONG_ROW, read.count);
    }
    read
}

// Whether an index is there and is this row.
fn names(indexes: &[u8], i: usize, row: usize) -> bool
    ensures { result ≡ ltb i (length indexes.now / 4) && eqb (number_at 4 indexes.now (i * 4)) row }
{
    i < indexes.len() / SHORT && short_at(indexes, i * SHORT) as usize == row
}

// The first index that is too many.
fn surplus(declared: usize, indexes: usize) -> Option<usize>
    ensures { result ≡ then_some (ltb declared indexes) declared }
{
    (declared < indexes).then_some(declared)
}

// The first index that doesn't name its declaration, is missing or is too many.
fn misnamed(indexes: &[u8], table: &[u64], rows: usize) -> Option<usize>
    requires { Tabled table.now rows }
    ensures { (d : Tabled table.now rows) → First (indexes_in indexes.now) d.ids result }
{
    let declarations = Declarations::of(table, rows);
    let mut first = surplus(declarations.left, indexes.len() / SHORT);
    for (i, row) in declarations {
        if !names(indexes, i, row) {
            first = Some(i);
        }
    }
    first
}

// How many of the first rows are tests.
fn tests(table: &[u64], rows: usize) -> usize
    requires { rows * width ≤ length table.now }
    ensures { (rs : List Row) (zs : List ℕ) → table.now ≡ flat rs ++ zs → length rs ≡ rows → result ≡ of_kind TEST rs }
{
    // kept: no chain, since `filter(..).count()` over the rows proved no more than a bound.
    let mut count = 0;
    for row in 0..rows {
        if table[row * WIDTH] == kind::TEST {
            count += 1;
        }
    }
    count
}

// A refusal leaves zeros throughout.
fn refused(table: &mut [u64], a: Answer) -> Checked
    ensures { (result ≡ refusing a) × (table.new ≡ zeroed table.old 0) }
{
    rows::clear(table, 0);
    Checked {
        number: a.number,
        start: a.start,
        end: a.end,
        count: a.count,
        tests: 0,
    }
}

// The answer to a file: accepted exactly when its rows are those that our reader makes for its source, by the old grammar (C-22), and its indexes name the
// declarations in order. The rows are then left in the table, as (a) would leave them. The table has room for one number more than they have.
pub fn check(file: &[u8], table: &mut [u64]) -> Checked
    ensures { Checks true file.now (length table.old) result table.new }
{
    let Some(parts) = parse(file) else {
        return refused(table, nowhere(UNFILLED, 0));
    };
    let a = compare(parts.source, parts.rows, table);
    if a.number != refusal::NONE {
        return refused(table, a);
    }
    let rows = a.count;
    if let Some(first) = misnamed(parts.indexes, table, rows) {
        return refused(table, differs(WRONG_INDEX, first));
    }
    rows::clear(table, rows * WIDTH);
    Checked {
        number: refusal::NONE,
        start: 0,
        end: file.len(),
        count: rows,
        tests: tests(table, rows),
    }
}

// Zeros from a place on.
fn clear(file: &mut [u8], from: usize)
    requires { from ≤ length file.old }
    ensures { file.new ≡ zeroed file.old from }
{
    file[from..].fill(0);
}

fn put_rows(numbers: &[u64], file: &mut [u8], at: usize)
    requires { at + length numbers.now * 8 ≤ length file.old }
    ensures { file.new ≡ sets file.old at (words 8 numbers.now) }
{
    for i in 0..numbers.len() {
        put_long(file, at + i * LONG, numbers[i]);
    }
}

// The rows of the declarations, from the last one back.
fn put_indexes(table: &[u64], rows: usize, file: &mut [u8], at: usize)
    requires { (d : Tabled table.now rows) × (at + length d.ids * 4 ≤ length file.old) }
    ensures { (d : Tabled table.now rows) → file.new ≡ sets file.old at (words 4 d.ids) }
{
    for (i, row) in Declarations::of(table, rows) {
        put_short(file, at + i * SHORT, row);
    }
}

// The three sections, and zeros behind them.
fn put_sections(s: &[u8], table: &[u64], rows: usize, indexes: usize, file: &mut [u8])
    requires { (d : Tabled table.now rows) × (length d.ids ≡ indexes) × (indexes_place (length s.now) rows + indexes * 4 ≤ length file.old) }
    ensures { (d : Tabled table.now rows) → file.new ≡ zeroed (sets file.old 0 (written (file_for s.now d.rows d.ids))) (sized s.now d.rows d.ids) }
{
    let source = SHORT + s.len();
    let behind = source + SHORT + rows * ROW;
    put_short(file, 0, s.len());
    put(file, SHORT, s);
    put_short(file, source, rows);
    put_rows(&table[..rows * WIDTH], file, source + SHORT);
    put_short(file, behind, indexes);
    put_indexes(table, rows, file, behind + SHORT);
    clear(file, behind + SHORT + indexes * SHORT);
}

// The file of a source, by the new grammar (C-22), in lent bytes; its rows in a lent table, as (a) leaves them. 10 says how many rows are needed, then how many bytes.
pub fn write(s: &[u8], table: &mut [u64], file: &mut [u8]) -> Answer
    ensures { Writes false s.now (length table.old) (length file.old) result table.new file.new }
{
    let a = entries::tree(s, table);
    if a.number != refusal::NONE {
        clear(file, 0);
        return a;
    }
    let rows = a.count;
    let indexes = Declarations::of(table, rows).left;
    let need = SHORT + s.len() + SHORT + rows * ROW + SHORT + indexes * SHORT;
    if file.len() < need {
        rows::clear(table, 0);
        clear(file, 0);
        return nowhere(refusal::NO_ROOM, need);
    }
    put_sections(s, table, rows, indexes, file);
    Answer {
        number: refusal::NONE,
        start: 0,
        end: s.len(),
        count: need,
    }
}
