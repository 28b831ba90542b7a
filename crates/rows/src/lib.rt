// The lent table of rows: seven numbers a row.
#![tactic(auto)]

ghost use Rattle.std.specs.Prelude.{◌≡◌, ◌<◌, length};
ghost use Rattle.rows.specs.Rows.{same_at, lowered, put_row, zeroed};

pub mod kind;

// The numbers of a row.
pub const WIDTH: usize = 7;

// A row but for its size.
#[derive(Clone, Copy, Debug, PartialEq, Eq)]
pub struct Row {
    pub kind: u64,
    pub start: usize,
    pub end: usize,
    pub children: u64,
    pub value: u64,
    pub detail: u64,
}

// kept: here and in `put` a place for each number and no array of seven, which would be one more copy of the row in the frames of the readers.
// Whether row n of a table is this one.
fn same_at(table: &[u64], n: usize, row: Row, size: u64) -> bool
    ensures { result ≡ same_at table.now n row size }
{
    if n < table.len() / WIDTH {
        let i = n * WIDTH;
        return (table[i] == row.kind)
            & ((table[i + 1] == row.start as u64)
                & ((table[i + 2] == row.end as u64)
                    & ((table[i + 3] == row.children)
                        & ((table[i + 4] == row.value)
                            & ((table[i + 5] == row.detail) & (table[i + 6] == size))))));
    }
    false
}

// The table's last number becomes n, where it was more.
fn note(table: &mut [u64], n: usize)
    requires { 0 < length table.old }
    ensures { table.new ≡ lowered table.old n }
{
    let last = table.len() - 1;
    if (n as u64) < table[last] {
        table[last] = n as u64;
    }
}

// Writes a row of a size at its place, where it fits; in a table to compare with, one number longer than its rows, only compares it. The last number is asked
// after the row: the other way round the readers' frames are larger (docs/ARCHITECTURE.md, "Stack").
pub fn put(table: &mut [u64], n: usize, row: Row, size: u64)
    ensures { table.new ≡ put_row table.old n row size }
{
    if table.len() % WIDTH == 1 {
        let same = same_at(table, n, row, size);
        if !same {
            note(table, n);
        }
        return;
    }
    if n < table.len() / WIDTH {
        let i = n * WIDTH;
        table[i] = row.kind;
        table[i + 1] = row.start as u64;
        table[i + 2] = row.end as u64;
        table[i + 3] = row.children;
        table[i + 4] = row.value;
        table[i + 5] = row.detail;
        table[i + 6] = size;
    }
}

// Zeros from a place on.
pub fn clear(table: &mut [u64], from: usize)
    ensures { table.new ≡ zeroed table.old from }
{
    if from <= table.len() {
        table[from..].fill(0);
    }
}
