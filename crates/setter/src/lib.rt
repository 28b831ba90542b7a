// One way of writing a filter: the print of a source's tree.
#![tactic(auto)]

ghost use Rattle.std.specs.Prelude.{◌≡◌, false, List, ℕ, suc, ◌+◌, ◌*◌, ◌≤◌, ◌<◌, eqb, length, get_or, set};
ghost use Rattle.canon.specs.Trees.{Forest, label};
ghost use Rattle.canon.specs.Layout as canon;
ghost use Rattle.canon.specs.Text.{Bit};
ghost use Rattle.forests.specs.Told.{trees, count};
ghost use Rattle.places.specs.Meant.{meant};
ghost use Rattle.layouts.specs.Packed.{place_in};
ghost use Rattle.setter.specs.Waiting.{row_at, Grown, back, Backs, Held, Kept, Rooted, PlacedUnder, Opened, ClosedBy, text_at, as_row, Turned, Writes};

use places::{Mark, Place};
use rows::WIDTH;
use sink::Sink;
use tokens::word;

pub mod entries;

// Where a row has its numbers in the lent table; its kind comes first.
const START: usize = 1;

const END: usize = 2;

const CHILDREN: usize = 3;

const VALUE: usize = 4;

const DETAIL: usize = 5;

const SIZE: usize = 6;

// A row of the table.
#[derive(Clone, Copy, Debug, PartialEq, Eq)]
struct Row {
    mark: Mark,
    start: usize,
    end: usize,
    children: usize,
    size: usize,
}

// Row n of the table, from 0.
fn row_at(rows: &[u64], n: usize) -> Row
    requires { suc n * 7 ≤ length rows.now }
    ensures { as_row result ≡ row_at rows.now n }
{
    let at = n * WIDTH;
    Row {
        mark: Mark {
            kind: rows[at],
            value: rows[at + VALUE],
            detail: rows[at + DETAIL],
        },
        start: rows[at + START] as usize,
        end: rows[at + END] as usize,
        children: rows[at + CHILDREN] as usize,
        size: rows[at + SIZE] as usize,
    }
}

// The numbers of the plan for each row: what waits to be written is at most twice as long as the table, two numbers each.
pub const PLAN_WIDTH: usize = 4;

const ITEM: usize = 2;

// `)` as words.
const CLOSE: u64 = word::ROUND_RIGHT + 1;

// What waits is a stack in the plan, what comes next on top. A row waits as its number from 1, with its place and the words before it; words wait as 0 and
// the words.
// kept: the plan is a lent, fixed table of numbers, so an entry is two numbers and no enum.
fn push(plan: &mut [u64], top: usize, row: u64, what: u64)
    requires { suc top * 2 ≤ length plan.old }
    ensures { plan.new ≡ set (set plan.old (top * 2) row) (top * 2 + 1) what }
{
    plan[top * ITEM] = row;
    plan[top * ITEM + 1] = what;
}

// Puts the children of a row on the stack, the first on top, from the last one back: each stands right before the subtree of the next.
fn push_children(rows: &[u64], plan: &mut [u64], top: usize, row: usize, children: usize)
    requires backs { Backs rows.now row children }
    requires children_in_bounds { (top + children) * 2 ≤ length plan.old }
    ensures { Kept plan.old plan.new top × Rooted rows.now row children plan.new top }
{
    let mut child = row;
    for i in 0..children {
        plan[(top + i) * ITEM] = child as u64;
        child -= row_at(rows, child - 1).size;
    }
}

// Gives the children on the stack their words and places, from the first on, and tells how far the layout has come.
fn place_children(
    rows: &[u64],
    plan: &mut [u64],
    top: usize,
    row: usize,
    children: usize,
    place: Place,
) -> u64
    requires row_in_bounds { suc row * 7 ≤ length rows.now }
    requires backs { Backs rows.now row children }
    requires children_in_bounds { (top + children) * 2 ≤ length plan.old }
    requires rooted { Rooted rows.now row children plan.old top }
    ensures { Kept plan.old plan.new top × PlacedUnder rows.now row children (meant place) plan.new top result }
{
    let parent = row_at(rows, row).mark;
    let mut phase = 0;
    for left in (0..children).rev() {
        let at = (top + left) * ITEM;
        let child = row_at(rows, plan[at] as usize - 1).mark.kind;
        plan[at + 1] = layouts::waiting_child(parent, place, phase, child, 0 < left);
        phase = layouts::next_phase(parent, phase, child);
    }
    phase
}

// Puts what is in a row on the stack, its last words and `)` below its children.
fn open(rows: &[u64], plan: &mut [u64], top: usize, row: usize, place: Place, pair: bool) -> usize
    requires row_in_bounds { suc row * 7 ≤ length rows.now }
    requires backs { Backs rows.now row (get_or rows.now (row * 7 + 3) 0) }
    requires row_in_bounds_2 { (suc top + get_or rows.now (row * 7 + 3) 0) * 2 ≤ length plan.old }
    ensures { Kept plan.old plan.new top × Opened rows.now row (meant place) pair plan.new top result }
{
    let opened = row_at(rows, row);
    let inner = place.inner(pair);
    push_children(rows, plan, top + 1, row, opened.children);
    let phase = place_children(rows, plan, top + 1, row, opened.children, inner);
    let last = layouts::ending(opened.mark, phase, inner.more, pair);
    push(plan, top, 0, last);
    top + 1 + opened.children
}

// `)` waits, if there is a pair.
fn close(plan: &mut [u64], top: usize, pair: bool) -> usize
    requires { suc top * 2 ≤ length plan.old }
    ensures { Kept plan.old plan.new top × ClosedBy pair plan.new top result }
{
    if pair {
        push(plan, top, 0, CLOSE);
        return top + 1;
    }
    top
}

// The text of a row that is copied; an f-string's row ends before its quote.
fn copied_text(s: &[u8], row: Row) -> &[u8]
    ensures { result.now ≡ text_at s.now (as_row row) }
{
    let end = row
        .end
        .saturating_add(layouts::quote(row.mark.kind))
        .min(s.len());
    &s[row.start.min(end)..end]
}

// Whether what waits is a row, by its number, that needs a pair at its place.
fn needs_pair(rows: &[u64], number: usize, what: u64) -> bool
    requires { number * 7 ≤ length rows.now }
    ensures { (number ≡ 0 → result ≡ false) × ((s : List ℕ) (j : ℕ) (kids : Forest) → number ≡ suc j → canon.empty kids ≡ eqb (get_or rows.now (j * 7 + 3) 0) 0 → result ≡ canon.needs (place_in what) (label s (row_at rows.now j)) kids) }
{
    if number == 0 {
        return false;
    }
    let row = row_at(rows, number - 1);
    row.mark.needs_pair(row.children, layouts::place_of(what))
}

// Writes what is on top of the stack: its words, and of a row what comes before its children, or all of it if it is copied. Tells how much waits then.
fn take_turn(
    s: &[u8],
    rows: &[u64],
    plan: &mut [u64],
    top: usize,
    text: &mut [u8],
    sink: &mut Sink,
) -> usize
    requires { (bs : List Bit) × (w : ℕ) × Held s.now rows.now plan.old 0 (suc top) bs w × (w * 2 ≤ length plan.old) }
    ensures { Turned s.now rows.now plan.old text.old top sink.old plan.new text.new sink.new result }
{
    let number = plan[top * ITEM] as usize;
    let what = plan[top * ITEM + 1];
    let pair = needs_pair(rows, number, what);
    sink.words(text, what, pair);
    if number == 0 {
        return top;
    }
    let row = row_at(rows, number - 1);
    if places::is_copied(row.mark.kind) {
        sink.copy(text, copied_text(s, row));
        return close(plan, top, pair);
    }
    open(rows, plan, top, number - 1, layouts::place_of(what), pair)
}

// Writes the tree whose root is the last of so many rows.
fn write(s: &[u8], rows: &[u64], count: usize, plan: &mut [u64], text: &mut [u8]) -> Sink
    requires grown { Grown s.now rows.now count }
    requires count_in_bounds { count * 4 ≤ length plan.old }
    ensures { Writes s.now rows.now count text.old text.new result }
{
    push(plan, 0, count as u64, layouts::waiting_root());
    let mut top = 1;
    let mut sink = Sink::new();
    // kept: what a turn leaves to wait is known only behind it, so there is no range and no iterator.
    while 0 < top {
        top = take_turn(s, rows, plan, top - 1, text, &mut sink);
    }
    sink
}
