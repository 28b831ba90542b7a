// What every reader stands on: the token that it stands at, the limits, how it goes past a token, writes a row, refuses.
#![tactic(auto)]

ghost use Rattle.std.specs.Prelude.{Some, None, Ok, Err, ◌≡◌, ◌≤◌, length};
ghost use Rattle.rows.specs.Rows.{put_row};
ghost use Rattle.std.proofs.Math.Seq.{slice};
ghost use Rattle.texts.specs.Parts.{part_at};
ghost use Rattle.texts.specs.Texts.{text_of};
ghost use Rattle.parser.specs.Places.{bumped, refused_word, word_of, end_of, here_at, refusal_at, unused, took, under, expected, opening, closing, later, node_of, size_from, put_over, plain_row, part_row, piece_read, piece_table, part_read, part_table};
ghost use Rattle.parser.specs.Counted.{lessened, opened, signed, plain, headed, chained, unchained};

use chars::refusal;
use rows::{Row, kind};
use texts::Part;
use tokens::{Cursor, Refusal, Step, word};

// More rows than any source has.
const MANY_ROWS: usize = 300000;

// Where a reader stands: the lexer's step from a place on, that place, and the rows written so far.
#[derive(Clone, Copy, Debug, PartialEq, Eq)]
pub struct Here {
    pub step: Step,
    pub place: usize,
    pub rows: usize,
}

impl Here {
    // The word of the token there; where there is none, that of the source's end or of what is no token.
    pub fn word(self) -> u64
        ensures { result ≡ word_of self }
    {
        match self.step {
            Ok((word, _, _)) => word,
            Err(why) => word_of_refused(why.number),
        }
    }

    // Where the token there ends.
    fn end(self) -> usize
        ensures { result ≡ end_of self }
    {
        match self.step {
            Ok((_, _, next)) => next.at,
            Err(why) => why.end,
        }
    }

    // The rows from so many on, and one more.
    fn size(self, since: usize) -> u64
        ensures { result ≡ size_from self since }
    {
        let count = row_more(self.rows);
        if since < count {
            (count - since) as u64
        } else {
            0
        }
    }

    // With one row more.
    pub fn later(self) -> Here
        ensures { result ≡ later self }
    {
        Here {
            rows: row_more(self.rows),
            ..self
        }
    }
}

// `f"`, the lexer's refusal 5, is a token here.
fn word_of_refused(number: u64) -> u64
    ensures { result ≡ refused_word number }
{
    match number {
        refusal::ENDS_EARLY => word::NONE,
        refusal::F_STRING => word::F_QUOTE,
        _ => word::NO_TOKEN,
    }
}

// How many brackets, prefixes in a row, `else if` of a chain and heads may still be opened.
#[derive(Clone, Copy, Debug, PartialEq, Eq)]
pub struct Limits {
    pub brackets: u8,
    pub signs: u8,
    pub chain: u8,
    pub heads: u8,
}

// A phrase's row, or 0 and the span of a token or list; a list's items.
#[derive(Clone, Copy, Debug, PartialEq, Eq)]
pub struct Node {
    pub kind: u64,
    pub start: usize,
    pub end: usize,
    pub children: u64,
}

// What was read, and where the reader stands behind it; or a refusal.
pub type Read = Result<(Node, Here), Refusal>;

// A statement, by how it ended: with its `;`; one of the four without; another expr without, which is the last.
#[derive(Clone, Copy, Debug, PartialEq, Eq)]
pub enum Stmt {
    Ended(Here),
    Four(Here),
    Last(Here),
}

// An arm, by whether another may follow.
#[derive(Clone, Copy, Debug, PartialEq, Eq)]
pub enum Arm {
    Followed(Here),
    Last(Here),
}

// The limits.

const LIMIT: u8 = 32;

// One less of what is left; more than the limit can't be.
fn one_less(n: u8) -> u8
    ensures { result ≡ lessened n }
{
    if LIMIT < n {
        return LIMIT - 1;
    }
    if 0 < n { n - 1 } else { 0 }
}

fn row_more(n: usize) -> usize
    ensures { result ≡ bumped n }
{
    if n < MANY_ROWS { n + 1 } else { n }
}

impl Limits {
    pub fn all() -> Limits
        ensures { result ≡ record { brackets = 32; signs = 32; chain = 32; heads = 32 } }
    {
        Limits {
            brackets: LIMIT,
            signs: LIMIT,
            chain: LIMIT,
            heads: LIMIT,
        }
    }

    // Behind a bracket that opens.
    pub fn opened(self) -> Limits
        ensures { result ≡ opened self }
    {
        Limits {
            brackets: one_less(self.brackets),
            ..self.plain()
        }
    }

    // Behind a prefix.
    pub fn signed(self) -> Limits
        ensures { result ≡ signed self }
    {
        Limits {
            signs: one_less(self.signs),
            ..self
        }
    }

    // Behind any other token.
    pub fn plain(self) -> Limits
        ensures { result ≡ plain self }
    {
        Limits {
            signs: LIMIT,
            ..self
        }
    }

    // Behind the word of a head.
    pub fn headed(self) -> Limits
        ensures { result ≡ headed self }
    {
        Limits {
            heads: one_less(self.heads),
            ..self.plain()
        }
    }

    // At an `else if`.
    pub fn chained(self) -> Limits
        ensures { result ≡ chained self }
    {
        Limits {
            chain: one_less(self.chain),
            ..self.plain()
        }
    }

    // At a head that begins a chain.
    pub fn unchained(self) -> Limits
        ensures { result ≡ unchained self }
    {
        Limits {
            chain: LIMIT,
            ..self.plain()
        }
    }
}

// Tokens.

// What a reader sees at a place.
pub fn look(s: &[u8], cursor: Cursor, rows: usize) -> Here
    ensures { result ≡ here_at s.now cursor.at rows }
{
    let step = cursor.step(s);
    Here {
        step,
        place: cursor.at,
        rows,
    }
}

pub fn refuse(number: u64, start: usize, end: usize) -> Read
    ensures { result ≡ Err (refusal_at number start end) }
{
    Err(Refusal { number, start, end })
}

// 6 at a token; where there is none, what the lexer refuses: 11 at the end of the source.
pub fn unusable(here: Here) -> Read
    ensures { result ≡ unused here }
{
    match here.step {
        Ok((_, start, next)) => refuse(refusal::UNUSABLE, start, next.at),
        Err(why) => {
            if why.number == refusal::F_STRING {
                return refuse(refusal::UNUSABLE, why.start, why.end);
            }
            Err(why)
        }
    }
}

// Goes past a token.
pub fn take(s: &[u8], here: Here) -> Read
    ensures { result ≡ took s.now here }
{
    let Ok((_, start, next)) = here.step else {
        return unusable(here);
    };
    Ok((
        Node {
            kind: kind::NONE,
            start,
            end: next.at,
            children: 0,
        },
        look(s, next, here.rows),
    ))
}

// Goes past a token that has to have a word.
pub fn expect(s: &[u8], here: Here, word: u64) -> Read
    ensures { result ≡ expected s.now here word }
{
    if here.word() != word {
        return unusable(here);
    }
    take(s, here)
}

// Goes past a token under a limit, of which so many are left.
pub fn deeper(s: &[u8], here: Here, left: u8) -> Read
    ensures { result ≡ under s.now here left }
{
    let Ok((_, start, next)) = here.step else {
        return unusable(here);
    };
    if left == 0 {
        return refuse(refusal::TOO_DEEP, start, next.at);
    }
    take(s, here)
}

// Goes past a bracket that opens.
pub fn open(s: &[u8], here: Here, bracket: u64, limits: Limits) -> Read
    ensures { result ≡ opening s.now here bracket limits.brackets }
{
    if here.word() != bracket {
        return unusable(here);
    }
    deeper(s, here, limits.brackets)
}

// Goes past the bracket that closes a list, which began at `start` and has so many items.
pub fn close(s: &[u8], here: Here, word: u64, start: usize, children: u64) -> Read
    ensures { result ≡ closing s.now here word start children }
{
    if here.word() != word {
        return unusable(here);
    }
    let Ok((_, _, next)) = here.step else {
        return unusable(here);
    };
    Ok((
        Node {
            kind: kind::NONE,
            start,
            end: next.at,
            children,
        },
        look(s, next, here.rows),
    ))
}

// A row without value and detail.
pub fn plain_row(kind: u64, start: usize, end: usize, children: u64) -> Row
    ensures { result ≡ plain_row kind start end children }
{
    Row {
        kind,
        start,
        end,
        children,
        value: 0,
        detail: 0,
    }
}

// Writes a phrase's row.
pub fn finish(table: &mut [u64], row: Row, here: Here, since: usize) -> Read
    ensures { (result ≡ Ok (node_of row, later here)) × (table.new ≡ put_over table.old here row since) }
{
    rows::put(table, here.rows, row, here.size(since));
    Ok((
        Node {
            kind: row.kind,
            start: row.start,
            end: row.end,
            children: 0,
        },
        here.later(),
    ))
}

// The row of a piece of text, whose value is its number of bytes in the end.
fn part_row(start: usize, end: usize, count: usize) -> Row
    ensures { result ≡ part_row start end count }
{
    Row {
        kind: kind::TEXT,
        start,
        end,
        children: 0,
        value: count as u64,
        detail: 0,
    }
}

// The piece of text from a place to `end`: its row if it has a byte, and what stands at `next`.
fn text_row(
    s: &[u8],
    table: &mut [u64],
    rows: usize,
    start: usize,
    end: usize,
    next: usize,
    word: u64,
) -> Read
    requires { (start ≤ end) × (end ≤ length s.now) }
    ensures { (result ≡ piece_read s.now rows start word end next (text_of (slice start end s.now))) × (table.new ≡ piece_table table.old rows start end (text_of (slice start end s.now))) }
{
    let Some(count) = texts::text(&s[start..end]) else {
        return refuse(refusal::VALUELESS, start, end);
    };
    let cursor = Cursor { at: next };
    if count == 0 {
        return Ok((
            Node {
                kind: word,
                start,
                end,
                children: 0,
            },
            look(s, cursor, rows),
        ));
    }
    rows::put(table, rows, part_row(start, end, count), 1);
    Ok((
        Node {
            kind: word,
            start,
            end,
            children: 1,
        },
        look(s, cursor, row_more(rows)),
    ))
}

// Goes past a token and the piece of text behind it, before a hole or before the quote.
pub fn piece(s: &[u8], table: &mut [u64], here: Here) -> Read
    ensures { (result ≡ part_read s.now here.rows (end_of here) (part_at s.now (end_of here))) × (table.new ≡ part_table s.now table.old here.rows (end_of here) (part_at s.now (end_of here))) }
{
    let start = here.end();
    let Some(part) = texts::f_string_part(s, start) else {
        return refuse(refusal::ENDS_EARLY, s.len(), s.len());
    };
    match part {
        Part::Before(end) => text_row(s, table, here.rows, start, end, end, word::TEXT_THEN_HOLE),
        Part::Ends(end) => text_row(s, table, here.rows, start, end, end + 1, word::LAST_TEXT),
    }
}
