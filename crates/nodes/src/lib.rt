// Which node is under the cursor: the last leaf in table order whose span holds a byte, found from the last row on by the sizes of subtrees.
#![tactic(auto)]

ghost use Rattle.std.specs.Prelude.{◌≡◌, ◌<◌};
ghost use Rattle.rows.specs.Rows.{room};
ghost use Rattle.nodes.specs.Nodes.{node_at, holds, is_leaf, wrong_size};
ghost use Rattle.nodes.specs.Search.{refusal, found, Permitted};

use chars::{Answer, refusal};
use rows::WIDTH;

// The size of a row that the search came to is wrong.
pub const WRONG_SIZE: u64 = 12;

// No leaf holds the byte.
pub const NO_LEAF: u64 = 13;

// Where a row has the numbers that the search looks at.
const START: usize = 1;

const END: usize = 2;

const CHILDREN: usize = 3;

const SIZE: usize = 6;

// What the search looks at of a row.
#[derive(Clone, Copy, Debug, PartialEq, Eq)]
pub struct Node {
    pub start: u64,
    pub end: u64,
    pub children: u64,
    pub size: u64,
}

impl Node {
    fn at(table: &[u64], row: usize) -> Node
        requires { row < room table.now }
        ensures { result ≡ node_at table.now row }
    {
        let at = row * WIDTH;
        Node {
            start: table[at + START],
            end: table[at + END],
            children: table[at + CHILDREN],
            size: table[at + SIZE],
        }
    }

    // On a span's end the byte is outside.
    fn holds(self, position: u64) -> bool
        ensures { result ≡ holds position self }
    {
        (self.start..self.end).contains(&position)
    }

    fn is_leaf(self) -> bool
        ensures { result ≡ is_leaf self }
    {
        self.children == 0
    }

    // Whether the size of the last of some rows is 0, reaches before the table's start, or isn't 1 at a leaf.
    fn wrong_size(self, rows: usize) -> bool
        ensures { result ≡ wrong_size rows self }
    {
        self.size == 0 || (rows as u64) < self.size || self.is_leaf() && self.size != 1
    }
}

fn refused(number: u64) -> Answer
    ensures { result ≡ refusal number }
{
    Answer {
        number,
        start: 0,
        end: 0,
        count: 0,
    }
}

fn accepted(node: Node, row: usize) -> Answer
    ensures { result ≡ found row node }
{
    Answer {
        number: refusal::NONE,
        start: node.start as usize,
        end: node.end as usize,
        count: row,
    }
}

// The last leaf that holds a byte: its span, and its index from 0 as count. Rows that don't hold it are skipped with all under them.
pub fn node_at(table: &[u64], position: u64) -> Answer
    ensures { Permitted table.now position result }
{
    let mut left = table.len() / WIDTH;
    while let Some(row) = left.checked_sub(1) {
        let node = Node::at(table, row);
        if node.wrong_size(left) {
            return refused(WRONG_SIZE);
        }
        if !node.holds(position) {
            left -= node.size as usize;
            continue;
        }
        if node.is_leaf() {
            return accepted(node, row);
        }
        left = row;
    }
    refused(NO_LEAF)
}
