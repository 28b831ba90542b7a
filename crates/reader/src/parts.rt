// Parts of phrases, and the rows over them.
ghost use Rattle.std.specs.Prelude.{Ok, Err, ◌≡◌, get_or};
ghost use Rattle.grammar.specs.Words.{close_brace};
ghost use Rattle.promises.specs.Firsts.{part_of, ended_by};
ghost use Rattle.parser.specs.Places.{end_of};
ghost use Rattle.promises.specs.Promises.{Closed, over_read, over_table};

use parser::{Here, Node, Read, Stmt, expect, finish};
use rows::{Row, kind};
use tokens::{Refusal, word};

// A part of a phrase that a reader tells of by the rows it has, where the phrase goes on at `here`.
pub fn part(children: u64, here: Here) -> Read
    ensures { result ≡ Ok (part_of children, here) }
{
    Ok((
        Node {
            kind: kind::NONE,
            start: 0,
            end: 0,
            children,
        },
        here,
    ))
}

// A statement behind its `;`.
pub fn ended(r: Read) -> Result<Stmt, Refusal>
    ensures { result ≡ ended_by r }
{
    let (_, next) = r?;
    Ok(Stmt::Ended(next))
}

// A row whose value tells of a part.
pub fn valued_row(kind: u64, start: usize, end: usize, children: u64, value: u64) -> Row
    ensures { result ≡ record { kind = kind; start = start; end = end; children = children; value = value; detail = 0 } }
{
    Row {
        kind,
        start,
        end,
        children,
        value,
        detail: 0,
    }
}

// A row whose detail tells of a word.
pub fn detail_row(kind: u64, start: usize, end: usize, children: u64, detail: u64) -> Row
    ensures { result ≡ record { kind = kind; start = start; end = end; children = children; value = 0; detail = detail } }
{
    Row {
        kind,
        start,
        end,
        children,
        value: 0,
        detail,
    }
}

// The row of a phrase that began at `start` and ends with the `}` that has to stand here.
pub fn braced(
    s: &[u8],
    table: &mut [u64],
    here: Here,
    kind: u64,
    start: usize,
    children: u64,
    value: u64,
    since: usize,
) -> Read
    ensures { Closed s.now here table.old close_brace (record { kind = kind; start = start; end = end_of here; children = children; value = value; detail = 0 }) since result table.new }
{
    let (brace, next) = expect(s, here, word::CURLY_RIGHT)?;
    finish(
        table,
        valued_row(kind, start, brace.end, children, value),
        next,
        since,
    )
}

// What a list holds at an index, or 0.
// kept: three functions for three widths, since a u32 is no usize by `From`.
fn place_in(list: &[u16], i: usize) -> usize
    ensures { result ≡ get_or list.now i 0 }
{
    list.get(i).copied().unwrap_or(0) as usize
}

fn rows_in(list: &[u32], i: usize) -> usize
    ensures { result ≡ get_or list.now i 0 }
{
    list.get(i).copied().unwrap_or(0) as usize
}

fn detail_in(list: &[u8], i: usize) -> u64
    ensures { result ≡ get_or list.now i 0 }
{
    list.get(i).copied().unwrap_or(0) as u64
}

// The rows of so many phrases that each end with the next, over what the innermost holds.
pub fn around(
    table: &mut [u64],
    starts: &[u16],
    sinces: &[u32],
    details: &[u8],
    count: usize,
    kind: u64,
    children: u64,
    inner: Read,
) -> Read
    ensures { (result ≡ over_read starts.now details.now kind children count inner) × (table.new ≡ over_table starts.now sinces.now details.now kind children count inner table.old) }
{
    let (mut found, mut here) = inner?;
    for n in (0..count).rev() {
        let row = detail_row(
            kind,
            place_in(starts, n),
            found.end,
            children,
            detail_in(details, n),
        );
        let (over, next) = finish(table, row, here, rows_in(sinces, n))?;
        found = over;
        here = next;
    }
    Ok((found, here))
}
