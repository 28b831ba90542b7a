// A lent table as its rows, and what their numbers say.

// A row's numbers.
pub type TableRow = [u64; rows::WIDTH];

// Where they stand in it: the kind, where the span begins and ends, the detail, and how many rows the subtree has.
pub const KIND: usize = 0;

pub const START: usize = 1;

pub const END: usize = 2;

pub const DETAIL: usize = 5;

pub const SIZE: usize = 6;

// A number of a row, 0 where the table has no such row.
pub fn cell(all: &[TableRow], row: usize, column: usize) -> u64 {
    all.get(row)
        .and_then(|numbers| numbers.get(column))
        .copied()
        .unwrap_or(0)
}

// The part of a source that a row spans.
pub fn row_text<'s>(s: &'s [u8], all: &[TableRow], row: usize) -> &'s [u8] {
    let start = cell(all, row, START) as usize;
    let end = s.len().min(cell(all, row, END) as usize);
    s.get(start..end).unwrap_or(&[])
}

// So many rows before a row, the first where there are fewer.
pub fn rows_before(row: usize, many: u64) -> usize {
    row.saturating_sub(many as usize)
}
