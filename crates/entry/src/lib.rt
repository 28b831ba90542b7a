// What entry points (a) and (b) answer to what was read, and entry point (d).
#![tactic(auto)]

ghost use Rattle.std.specs.Prelude.{◌≡◌, ◌+◌, length};
ghost use Rattle.tokens.specs.Tokens.{refusal, counted as countedOf};
ghost use Rattle.rows.specs.Rows.{zeroed};
ghost use Rattle.answers.specs.Entries.{room};
ghost use Rattle.entry.specs.Entries.{kept_rows, answered, left_by, stored_answer, stored_rows, name_text, name_start};

use chars::{Answer, refusal};
use parser::Read;
use tokens::Refusal;

// A refusal leaves zeros throughout.
pub fn refused(table: &mut [u64], r: Refusal) -> Answer
    ensures { (result ≡ refusal r) × (table.new ≡ zeroed table.old 0) }
{
    rows::clear(table, 0);
    Answer {
        number: r.number,
        start: r.start,
        end: r.end,
        count: 0,
    }
}

// Zeros behind the rows, where there was room for them.
pub fn counted(table: &mut [u64], size: usize, count: usize) -> Answer
    ensures { (result ≡ countedOf size count (room (length table.old))) × (table.new ≡ kept_rows table.old count) }
{
    if count <= table.len() / rows::WIDTH {
        rows::clear(table, count * rows::WIDTH);
        return Answer {
            number: refusal::NONE,
            start: 0,
            end: size,
            count,
        };
    }
    rows::clear(table, 0);
    Answer {
        number: refusal::NO_ROOM,
        start: 0,
        end: 0,
        count,
    }
}

// The answer to a source of so many bytes that was read so, and what is left in the table.
pub fn answer(table: &mut [u64], size: usize, r: Read) -> Answer
    ensures { (result ≡ answered size (length table.old) r) × (table.new ≡ left_by table.old r) }
{
    match r {
        Ok((_, here)) => counted(table, size, here.rows),
        Err(why) => refused(table, why),
    }
}

// The answer to a source whose rows were put into a table that keeps them as they are there.
pub fn answer_put(table: &mut [u64], size: usize, r: Read) -> Answer
    ensures { (result ≡ stored_answer size r) × (table.new ≡ stored_rows table.old r) }
{
    match r {
        Ok((_, here)) => Answer {
            number: refusal::NONE,
            start: 0,
            end: size,
            count: here.rows,
        },
        Err(why) => refused(table, why),
    }
}

// (d): the part of the source that a row of kind 1 spans; else the empty part at the front.
pub fn name_text(s: &[u8], kind: u64, start: usize, end: usize) -> &[u8]
    ensures { (result.now ≡ name_text s.now kind start end) × (result.ref_ptr ≡ (s.entry.ref_ptr.0, s.entry.ref_ptr.1 + name_start s.now kind start end)) }
{
    if kind != 1 {
        return &s[..0];
    }
    if end < start {
        return &s[..0];
    }
    if s.len() < end {
        return &s[..0];
    }
    &s[start..end]
}
