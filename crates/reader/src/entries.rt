// Entry points (a) and (b), by the new grammar, and the rows of a file's source, by the old one (C-22), put into any table.
ghost use Rattle.std.specs.Prelude.{true, false, length};
ghost use Rattle.answers.specs.Entries.{Permitted};
ghost use Rattle.entry.specs.Puts.{Puts};

use chars::Answer;
use entry::{answer, answer_put, refused};
use rows::WIDTH;

// A source to its tree. The table is handed on without what is left over behind its rows: it is none to compare with.
fn read_tree(s: &[u8], table: &mut [u64], tests: bool) -> Answer
    ensures { Permitted tests true s.now (length table.old) result table.new }
{
    match tokens::check_source(s) {
        Err(why) => refused(table, why),
        Ok(()) => {
            let whole = table.len() / WIDTH * WIDTH;
            let r = super::tree(s, &mut table[..whole], tests);
            answer(table, s.len(), r)
        }
    }
}

// (a): a source to its tree.
pub fn tree(s: &[u8], table: &mut [u64]) -> Answer
    ensures { Permitted false true s.now (length table.old) result table.new }
{
    read_tree(s, table, false)
}

// The same by the old grammar, in which `test` is a declaration (C-22).
pub fn old_tree(s: &[u8], table: &mut [u64]) -> Answer
    ensures { Permitted true true s.now (length table.old) result table.new }
{
    read_tree(s, table, true)
}

// (b): a source to one expression.
pub fn expression(s: &[u8], table: &mut [u64]) -> Answer
    ensures { Permitted false false s.now (length table.old) result table.new }
{
    match tokens::check_source(s) {
        Err(why) => refused(table, why),
        Ok(()) => {
            let whole = table.len() / WIDTH * WIDTH;
            let r = super::expression(s, &mut table[..whole]);
            answer(table, s.len(), r)
        }
    }
}

// The rows of a tree, `test` being a declaration, put into a table one after the other. One to compare with keeps its own, and its last number becomes the first that differs.
pub fn put_rows(s: &[u8], table: &mut [u64]) -> Answer
    ensures { Puts true s.now table.old result table.new }
{
    match tokens::check_source(s) {
        Err(why) => refused(table, why),
        Ok(()) => {
            let r = super::tree(s, table, true);
            answer_put(table, s.len(), r)
        }
    }
}
