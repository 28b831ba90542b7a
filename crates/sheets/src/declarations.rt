// The declarations of a table's rows, from the last one back.
ghost use Rattle.std.specs.Prelude.{◌≡◌, ◌+◌, ◌-◌, ◌*◌, ◌≤◌, ◌<◌, length, get_or, MatchOption};
ghost use Rattle.std.specs.Iterator.{at_most};
ghost use Rattle.sheets.specs.Walks.{Tabled, Begins, Walking, Steps};

use rows::WIDTH;

// Where a row has the number of its children, and its size.
const CHILDREN: usize = 3;

const SIZE: usize = 6;

// So many declarations are left, and their subtrees end before a row. They are the children of a table's last row, and each stands right before
// the subtree of the next.
#[derive(Drop)]
pub struct Declarations<'a> {
    table: &'a [u64],
    row: usize,
    pub left: usize,
}

impl<'a> Declarations<'a> {
    pub fn of(table: &'a [u64], rows: usize) -> Declarations<'a>
        requires { Tabled table.now rows }
        ensures { (result.table.now ≡ table.now) × ((d : Tabled table.now rows) → Begins d result.row result.left) }
    {
        let row = rows - 1;
        Declarations {
            table,
            row,
            left: table[row * WIDTH + CHILDREN] as usize,
        }
    }
}

// Each with its number.
impl Iterator for Declarations<'_> {
    type Item = (usize, usize);

    ghost can_next = { λ s. Walking s.table.now s.row s.left };

    ghost next_gives = { λ s r t. (t.table.now ≡ s.table.now) × Steps s.table.now s.row s.left r t.row t.left };

    ghost remaining = { λ s. at_most s.left };

    fn next(&mut self) -> Option<(usize, usize)> {
        self.left = self.left.checked_sub(1)?;
        let row = self.row - 1;
        self.row -= self.table[row * WIDTH + SIZE] as usize;
        Some((self.left, row))
    }
}
