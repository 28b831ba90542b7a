// Document 01's parser: from tokens to rows. It follows expr.rs and mod.rs, rule by rule, and is predictive: the word that a
// reader stands at says which rule it follows, or that none fits. Expressions and blocks, which hold each other, are here.
#![tactic(auto)]

ghost use Rattle.std.specs.Prelude.{◌≡◌, true, false, ◌≢◌, ◌+◌, ◌≤◌, ◌<◌, T};
ghost use Rattle.grammar.specs.Words.{names, path_items, literals, return_words, f_quote, '!', '-', dot, open_paren, close_paren, 'let', 'if'};
ghost use Rattle.grammar.specs.Grammar.{one_of};
ghost use Rattle.grammar.specs.Kinds.{BLOCK, LET, LITERAL, PARENS, BRACES, FIELD, EXPRS, FOUR, ARM, EXPR, OPERAND, F_STRING};
ghost use Rattle.parser.specs.Places.{word_of};
ghost use Rattle.parser.specs.Counted.{counts};
ghost use Rattle.parser.specs.Going.{Stands, Answers};
ghost use Rattle.promises.specs.Firsts.{postfix_signs, joined_read, joined_table, looser_than, arm_end, onward, few};
ghost use Rattle.promises.specs.Promises.{the, Anyhow, Listed, Guarded, LEVEL, Atom, Behind, AnyBehind, Fielded, Headed, after_if, after_match, NamedIn, Tested, Elsed, linked, OneArm, Bodied, Stated, Statement, BeyondStatement, Beyond, Finished};

use chars::{MOST_BYTES, refusal};
use declarations::declaration;
use imports::import;
use names::{identifier, path};
use parser::{
    Arm, Here, Limits, Node, Read, Stmt, close, deeper, expect, finish, look, open, piece,
    plain_row, refuse, take, unusable,
};
use parts::{around, braced, detail_row, ended, part, valued_row};
use patterns::pattern;
use rows::{Row, kind};
use tokens::{Cursor, Refusal, word};
use types::{question, typing};
use values::Literal;
use words::{
    assign_detail, begins_declaration, binary_detail, binary_level, can_begin_expr,
    can_begin_statement, ends_return, is_assign, is_four, is_literal, is_name, is_path_item,
    is_postfix, is_sign, return_detail, sign_kind,
};

pub mod declarations;
pub mod entries;
mod imports;
mod names;
mod parts;
mod patterns;
mod types;

// How tight the signs of a level bind: `* / %` most, comparisons third.
const TIGHTEST: u64 = 5;

const COMPARISON: u64 = 3;

// A return form, or binary, or an assignment.
#[cycle(exprs)]
fn expr(s: &[u8], table: &mut [u64], here: Here, limits: Limits, records: bool) -> Read
    requires { Stands s.now here }
    ensures { Answers (the s.now (counts limits) (EXPR records) here table.old) 1 result table.new }
{
    if return_detail(here.word()) != 0 {
        return return_expr(s, table, here, limits, records);
    }
    assign_expr(s, table, here, limits, records)
}

// Binary, or a path, an assignment sign and binary.
#[cycle(exprs)]
fn assign_expr(s: &[u8], table: &mut [u64], here: Here, limits: Limits, records: bool) -> Read
    requires { (Stands s.now here) × (T (one_of (word_of here) return_words) → ⊥) }
    ensures { Answers (the s.now (counts limits) (EXPR records) here table.old) 1 result table.new }
{
    if !can_begin_expr(here.word()) {
        return unusable(here);
    }
    let (left, sign) = binop_expr(s, table, here, limits, records, 1)?;
    if !is_assign(sign.word()) {
        return Ok((left, sign));
    }
    if left.kind != kind::PATH {
        return refuse(refusal::NO_PATH, left.start, left.end);
    }
    let (_, next) = take(s, sign)?;
    let (right, next) = binop_expr(s, table, next, limits.plain(), records, 1)?;
    let row = detail_row(
        kind::ASSIGN,
        left.start,
        right.end,
        2,
        assign_detail(sign.word()),
    );
    finish(table, row, next, here.rows)
}

// Any number of `return`, `accept`, `reject`: where one stands behind another, its row is over that one's. The last takes an expr
// exactly when the next token can begin one; where no record may stand, `{` has to follow, which begins one.
#[cycle(exprs)]
fn return_expr(s: &[u8], table: &mut [u64], at: Here, limits: Limits, records: bool) -> Read
    requires { (Stands s.now at) × (T (one_of (word_of at) return_words)) }
    ensures { Answers (the s.now (counts limits) (EXPR records) at table.old) 1 result table.new }
{
    // kept: three arrays of 224 bytes and none of structs, which are 256: each call of the cycle has them in its frame.
    let mut starts: [u16; 32] = [0; 32];
    let mut sinces: [u32; 32] = [0; 32];
    let mut details: [u8; 32] = [0; 32];
    let mut count: usize = 0;
    let mut here = at;
    let mut inner = limits;
    loop {
        let (word, next) = deeper(s, here, inner.signs)?;
        let detail = return_detail(here.word());
        inner = inner.signed();
        if ends_return(next.word(), records) {
            let row = detail_row(kind::RETURN, word.start, word.end, 0, detail);
            let r = finish(table, row, next, here.rows);
            return around(table, &starts, &sinces, &details, count, kind::RETURN, 1, r);
        }
        if return_detail(next.word()) == 0 {
            let (value, behind) = assign_expr(s, table, next, inner, records)?;
            let row = detail_row(kind::RETURN, word.start, value.end, 1, detail);
            let r = finish(table, row, behind, here.rows);
            return around(table, &starts, &sinces, &details, count, kind::RETURN, 1, r);
        }
        starts[count] = word.start as u16;
        sinces[count] = here.rows as u32;
        details[count] = detail as u8;
        count += 1;
        here = next;
    }
}

// Factors joined by signs, from the level `up` on; a tighter sign binds first. What was read is joined with what stands
// behind a sign that binds no tighter than the one before it, and comparisons aren't chained.
#[cycle(exprs)]
fn binop_expr(s: &[u8], table: &mut [u64], at: Here, limits: Limits, records: bool, up: u64) -> Read
    requires { (Stands s.now at) × ((1 ≤ up) × (up ≤ 5)) }
    ensures { Answers (the s.now (counts limits) (LEVEL up records) at table.old) 1 result table.new }
{
    let (first, next) = factor(s, table, at, limits, records, TIGHTEST)?;
    if binary_level(next.word()) < up {
        return Ok((first, next));
    }
    let after = limits.plain();
    let mut left = first;
    let mut here = next;
    let mut tight = TIGHTEST;
    loop {
        let sign = binary_level(here.word());
        if (sign < up) | (tight < sign) {
            return Ok((left, here));
        }
        let step = here.step;
        let Ok((word, _, next)) = step else {
            return unusable(here);
        };
        let behind = look(s, next, here.rows);
        let right = factor(s, table, behind, after, records, sign);
        let (both, next) = joined(table, left, right, word, at.rows)?;
        left = both;
        here = next;
        tight = chained_level(sign);
    }
}

// The row of a sign between what was read and what was read behind it.
fn joined(table: &mut [u64], left: Node, right: Read, word: u64, since: usize) -> Read
    ensures { (result ≡ joined_read left word right) × (table.new ≡ joined_table left word since right table.old) }
{
    let (found, next) = right?;
    let row = detail_row(kind::BINARY, left.start, found.end, 2, binary_detail(word));
    finish(table, row, next, since)
}

// How tight a sign behind one of a level may bind: comparisons aren't chained.
fn chained_level(level: u64) -> u64
    ensures { result ≡ looser_than level }
{
    if level == COMPARISON {
        COMPARISON - 1
    } else {
        level
    }
}

// What the signs of a level join: at the tightest an operand, else what the signs of the next level join. An operand without a
// sign is read at once, which saves the stack of a call for signs.
#[cycle(exprs)]
fn factor(
    s: &[u8],
    table: &mut [u64],
    here: Here,
    limits: Limits,
    records: bool,
    level: u64,
) -> Read
    requires { (Stands s.now here) × ((1 ≤ level) × (level ≤ 5)) }
    ensures { Answers (the s.now (counts limits) (LEVEL (level + 1) records) here table.old) 1 result table.new }
{
    if level < TIGHTEST {
        return binop_expr(s, table, here, limits, records, level + 1);
    }
    if is_sign(here.word()) {
        return operand(s, table, here, limits, records);
    }
    access(s, table, here, limits, records)
}

// Any `!` or `-`, then an atom with what follows it: one call a sign, with one sign less allowed.
#[cycle(exprs)]
fn operand(s: &[u8], table: &mut [u64], at: Here, limits: Limits, records: bool) -> Read
    requires { Stands s.now at }
    ensures { Answers (the s.now (counts limits) (OPERAND records) at table.old) 1 result table.new }
{
    let sign = at.word();
    let signed = is_sign(sign);
    let mut here = at;
    let mut inner = limits;
    let mut start = 0;
    if signed {
        let step = at.step;
        let Ok((_, begin, next)) = step else {
            return unusable(at);
        };
        if limits.signs == 0 {
            return refuse(refusal::TOO_DEEP, begin, next.at);
        }
        let step = next.step(s);
        here = Here {
            step,
            place: next.at,
            rows: at.rows,
        };
        inner = limits.signed();
        start = begin;
    }
    let r = if signed {
        operand(s, table, here, inner, records)
    } else {
        access(s, table, here, inner, records)
    };
    if !signed {
        return r;
    }
    let (found, next) = r?;
    let row = plain_row(sign_kind(sign), start, found.end, 1);
    finish(table, row, next, at.rows)
}

// An atom with any `?`, `( list of exprs )`, `. name`.
#[cycle(exprs)]
fn access(s: &[u8], table: &mut [u64], at: Here, limits: Limits, records: bool) -> Read
    requires { (Stands s.now at) × ((word_of at ≢ '!') × (word_of at ≢ '-')) }
    ensures { Answers (the s.now (counts limits) (OPERAND records) at table.old) 1 result table.new }
{
    let (first, next) = atom(s, table, at, limits, records)?;
    if !is_postfix(next.word()) {
        return Ok((first, next));
    }
    let mut left = first;
    let mut here = next;
    while is_postfix(here.word()) {
        let (found, next) = postfix(s, table, left, here, limits, at.rows)?;
        left = found;
        here = next;
    }
    Ok((left, here))
}

// What may stand behind an atom: `?`, `( list of exprs )`, `. name`.
#[cycle(exprs)]
fn postfix(
    s: &[u8],
    table: &mut [u64],
    left: Node,
    here: Here,
    limits: Limits,
    since: usize,
) -> Read
    requires { (Stands s.now here) × (T (one_of (word_of here) postfix_signs)) }
    ensures { (Behind s.now left here table.old limits since result table.new) × (onward here result) }
{
    if here.word() == word::QUESTION_MARK {
        return question(s, table, left, here, kind::QUESTION, since);
    }
    if here.word() != word::ROUND_LEFT {
        return field_access(s, table, left, here, since);
    }
    let (list, next) = arguments(s, table, here, limits)?;
    let row = plain_row(kind::CALL, left.start, list.end, list.children + 1);
    finish(table, row, next, since)
}

fn field_access(s: &[u8], table: &mut [u64], left: Node, here: Here, since: usize) -> Read
    requires { (Stands s.now here) × (word_of here ≡ dot) }
    ensures { (AnyBehind s.now left here table.old since result table.new) × (onward here result) }
{
    let (_, next) = take(s, here)?;
    let (name, next) = identifier(s, table, next)?;
    finish(
        table,
        plain_row(kind::ACCESS, left.start, name.end, 2),
        next,
        since,
    )
}

// `( list of exprs )`
// kept: no `separated` over closures for this and the other lists in brackets; document 01 asks for one list rule per kind of item, with one proof.
#[cycle(exprs)]
fn arguments(s: &[u8], table: &mut [u64], at: Here, limits: Limits) -> Read
    requires { Stands s.now at }
    ensures { (Listed s.now at table.old limits open_paren EXPRS close_paren result table.new) × (onward at result) × (few result) }
{
    let (opening, inside) = open(s, at, word::ROUND_LEFT, limits)?;
    let inner = limits.opened();
    let mut here = inside;
    let mut children: u64 = 0;
    while can_begin_expr(here.word()) {
        let (_, next) = expr(s, table, here, inner, true)?;
        children += 1;
        if next.word() != word::COMMA {
            return close(s, next, word::ROUND_RIGHT, opening.start, children);
        }
        let (_, after) = take(s, next)?;
        here = after;
    }
    close(s, here, word::ROUND_RIGHT, opening.start, children)
}

#[cycle(exprs)]
fn atom(s: &[u8], table: &mut [u64], here: Here, limits: Limits, records: bool) -> Read
    requires { (Stands s.now here) × ((word_of here ≢ '!') × (word_of here ≢ '-')) }
    ensures { Atom s.now here table.old limits records result table.new }
{
    if is_literal(here.word()) {
        return literal(s, table, here);
    }
    if is_path_item(here.word()) {
        return path_expr(s, table, here, limits, records);
    }
    if here.word() == word::F_QUOTE {
        return f_string(s, table, here, limits);
    }
    if here.word() == word::ROUND_LEFT {
        return parens(s, table, here, limits);
    }
    if here.word() == word::CURLY_LEFT {
        if records {
            return braces(s, table, here, limits);
        }
        return block(s, table, here, limits);
    }
    if is_four(here.word()) {
        return four(s, table, here, limits);
    }
    unusable(here)
}

fn literal(s: &[u8], table: &mut [u64], here: Here) -> Read
    requires { (Stands s.now here) × (T (one_of (word_of here) literals)) }
    ensures { Anyhow s.now LITERAL here table.old 1 result table.new }
{
    let step = here.step;
    let Ok((word, start, cursor)) = step else {
        return unusable(here);
    };
    let Some(
        Literal {
            kind,
            value,
            detail,
        },
    ) = values::literal_at(s, tokens::code_of(word), start, cursor.at)
    else {
        return refuse(refusal::VALUELESS, start, cursor.at);
    };
    let row = Row {
        kind,
        start,
        end: cursor.at,
        children: 0,
        value,
        detail,
    };
    finish(table, row, look(s, cursor, here.rows), here.rows)
}

// A string with expressions inside: text, then a hole with one expr, and so on to the quote.
#[cycle(exprs)]
fn f_string(s: &[u8], table: &mut [u64], at: Here, limits: Limits) -> Read
    requires { (Stands s.now at) × (word_of at ≡ f_quote) }
    ensures { Answers (the s.now (counts limits) F_STRING at table.old) 1 result table.new }
{
    let step = at.step;
    let Err(quote) = step else {
        return unusable(at);
    };
    let mut here = at;
    let mut children: u64 = 0;
    loop {
        let (text, next) = piece(s, table, here)?;
        children += text.children;
        if text.kind == word::LAST_TEXT {
            let row = plain_row(kind::F_STRING, quote.start, text.end, children);
            return finish(table, row, next, at.rows);
        }
        let (_, inside) = open(s, next, word::CURLY_LEFT, limits)?;
        let (_, next) = expr(s, table, inside, limits.opened(), true)?;
        if next.word() != word::CURLY_RIGHT {
            return unusable(next);
        }
        children += 1;
        here = next;
    }
}

// A path, or a record that a path begins.
#[cycle(exprs)]
fn path_expr(s: &[u8], table: &mut [u64], here: Here, limits: Limits, records: bool) -> Read
    requires { (Stands s.now here) × (T (one_of (word_of here) path_items)) }
    ensures { Atom s.now here table.old limits records result table.new }
{
    let (found, next) = path(s, table, here)?;
    if !records {
        return Ok((found, next));
    }
    if next.word() != word::CURLY_LEFT {
        return Ok((found, next));
    }
    let (_, inside) = open(s, next, word::CURLY_LEFT, limits)?;
    record(s, table, inside, limits.opened(), found.start, 1, here.rows)
}

// `( expr )` gives no row and widens no span.
#[cycle(exprs)]
fn parens(s: &[u8], table: &mut [u64], here: Here, limits: Limits) -> Read
    requires { Stands s.now here }
    ensures { Answers (the s.now (counts limits) PARENS here table.old) 1 result table.new }
{
    let (_, inside) = open(s, here, word::ROUND_LEFT, limits)?;
    let (found, next) = expr(s, table, inside, limits.opened(), true)?;
    let (_, behind) = expect(s, next, word::ROUND_RIGHT)?;
    Ok((found, behind))
}

// A record where `{ name :` stands, else a block. Behind `{` and a name one token is looked at, and dropped.
#[cycle(exprs)]
fn braces(s: &[u8], table: &mut [u64], here: Here, limits: Limits) -> Read
    requires { Stands s.now here }
    ensures { Answers (the s.now (counts limits) BRACES here table.old) 1 result table.new }
{
    let (opening, inside) = open(s, here, word::CURLY_LEFT, limits)?;
    let inner = limits.opened();
    if !is_name(inside.word()) {
        return stmts(s, table, inside, inner, opening.start);
    }
    let (_, behind) = take(s, inside)?;
    if behind.word() == word::COLON {
        return record(s, table, inside, inner, opening.start, 0, here.rows);
    }
    stmts(s, table, inside, inner, opening.start)
}

// The fields of a record from behind its `{` on; `paths` is 1 if a path stands before that.
// kept: no `separated` over closures for this and the other lists in brackets; document 01 asks for one list rule per kind of item, with one proof.
#[cycle(exprs)]
fn record(
    s: &[u8],
    table: &mut [u64],
    at: Here,
    limits: Limits,
    start: usize,
    paths: u64,
    since: usize,
) -> Read
    requires { (Stands s.now at) × (limits.signs ≡ 32) × (paths ≤ 1) }
    ensures { Fielded s.now at table.old limits start paths since result table.new }
{
    let mut here = at;
    let mut children = paths;
    while is_name(here.word()) {
        let (_, next) = field(s, table, here, limits)?;
        children += 1;
        if next.word() != word::COMMA {
            return braced(s, table, next, kind::RECORD, start, children, paths, since);
        }
        let (_, after) = take(s, next)?;
        here = after;
    }
    braced(s, table, here, kind::RECORD, start, children, paths, since)
}

// `name : expr`
#[cycle(exprs)]
fn field(s: &[u8], table: &mut [u64], here: Here, limits: Limits) -> Read
    requires { (Stands s.now here) × (limits.signs ≡ 32) }
    ensures { Answers (the s.now (counts limits) FIELD here table.old) 1 result table.new }
{
    let (name, next) = identifier(s, table, here)?;
    let (_, next) = expect(s, next, word::COLON)?;
    let (value, next) = expr(s, table, next, limits.plain(), true)?;
    finish(
        table,
        plain_row(kind::FIELD, name.start, value.end, 2),
        next,
        here.rows,
    )
}

// An `if`, `while`, `for` or `match`.
#[cycle(exprs)]
fn four(s: &[u8], table: &mut [u64], here: Here, limits: Limits) -> Read
    requires { Stands s.now here }
    ensures { Answers (the s.now (counts limits) FOUR here table.old) 1 result table.new }
{
    if !is_four(here.word()) {
        return unusable(here);
    }
    let limits = limits.unchained();
    let (word, next) = deeper(s, here, limits.heads)?;
    let start = word.start;
    let since = here.rows;
    if here.word() == word::IF {
        return if_else(s, table, next, limits, start);
    }
    if here.word() == word::MATCH {
        return match_expr(s, table, next, limits, start);
    }
    if here.word() == word::WHILE {
        let (body, next) = cond(s, table, next, limits)?;
        return finish(
            table,
            plain_row(kind::WHILE, start, body.end, 2),
            next,
            since,
        );
    }
    let (_, next) = name_in(s, table, next)?;
    let (body, next) = cond(s, table, next, limits)?;
    finish(table, plain_row(kind::FOR, start, body.end, 3), next, since)
}

// `name in` behind a `for`.
fn name_in(s: &[u8], table: &mut [u64], here: Here) -> Read
    requires { Stands s.now here }
    ensures { NamedIn s.now here table.old result table.new }
{
    let (_, next) = identifier(s, table, here)?;
    expect(s, next, word::IN)
}

// `if expr block [else block or if]`. Like the other three it is read from behind its word on, which starts at `start`. The
// row of an `if` is over that of the `if` behind its `else`.
#[cycle(exprs)]
fn if_else(s: &[u8], table: &mut [u64], at: Here, limits: Limits, start: usize) -> Read
    requires { (Stands s.now at) × (limits.signs ≡ 32) × (start < 65536) }
    ensures { Headed after_if s.now at table.old limits start result table.new }
{
    let mut starts: [u16; 32] = [0; 32];
    let mut sinces: [u32; 32] = [0; 32];
    let none: [u8; 0] = [0; 0];
    let mut since = at.rows;
    let mut count: usize = 0;
    let mut here = at;
    let mut inner = limits;
    let mut begin = start;
    loop {
        let (body, next) = cond(s, table, here, inner)?;
        if next.word() != word::ELSE {
            let r = finish(table, plain_row(kind::IF, begin, body.end, 2), next, since);
            return around(table, &starts, &sinces, &none, count, kind::IF, 3, r);
        }
        let (_, behind) = take(s, next)?;
        if behind.word() != word::IF {
            let r = elses(s, table, behind, inner, begin, since);
            return around(table, &starts, &sinces, &none, count, kind::IF, 3, r);
        }
        let (word, next) = else_if(s, behind, inner)?;
        starts[count] = begin as u16;
        sinces[count] = since as u32;
        since = behind.rows;
        count += 1;
        here = next;
        inner = inner.chained();
        begin = word.start;
    }
}

// `expr block` behind an `if`, a `while` or an `in`.
#[cycle(exprs)]
fn cond(s: &[u8], table: &mut [u64], at: Here, limits: Limits) -> Read
    requires { Stands s.now at }
    ensures { (Tested s.now at table.old limits result table.new) × (Beyond s.now at result) }
{
    let (_, next) = expr(s, table, at, limits.headed(), false)?;
    block(s, table, next, limits)
}

// The block behind an `else`, and the row of its `if`.
#[cycle(exprs)]
fn elses(
    s: &[u8],
    table: &mut [u64],
    here: Here,
    limits: Limits,
    start: usize,
    since: usize,
) -> Read
    requires { (Stands s.now here) × (word_of here ≢ 'if') }
    ensures { Elsed s.now here table.old limits start since result table.new }
{
    if here.word() != word::CURLY_LEFT {
        return unusable(here);
    }
    let (body, next) = block(s, table, here, limits)?;
    finish(table, plain_row(kind::IF, start, body.end, 3), next, since)
}

// An `if` behind `else`.
fn else_if(s: &[u8], here: Here, limits: Limits) -> Read
    ensures { result ≡ linked s.now here limits }
{
    let left = if limits.chain == 0 { 0 } else { limits.heads };
    deeper(s, here, left)
}

// `match expr { arms }`; its children are the expr and they.
#[cycle(exprs)]
fn match_expr(s: &[u8], table: &mut [u64], at: Here, limits: Limits, start: usize) -> Read
    requires { (Stands s.now at) × (limits.signs ≡ 32) }
    ensures { Headed after_match s.now at table.old limits start result table.new }
{
    let (_, next) = expr(s, table, at, limits.headed(), false)?;
    let (_, inside) = open(s, next, word::CURLY_LEFT, limits)?;
    let inner = limits.opened();
    let mut here = inside;
    let mut children: u64 = 1;
    while is_name(here.word()) {
        let read = arm(s, table, here, inner)?;
        children += 1;
        match read {
            Arm::Followed(next) => here = next,
            Arm::Last(next) => return braced(
                s,
                table,
                next,
                kind::MATCH,
                start,
                children,
                0,
                at.rows,
            ),
        }
    }
    braced(s, table, here, kind::MATCH, start, children, 0, at.rows)
}

// A pattern, perhaps a guard, `=>`, a body, and its comma.
#[cycle(exprs)]
fn arm(s: &[u8], table: &mut [u64], here: Here, limits: Limits) -> Result<Arm, Refusal>
    requires { (Stands s.now here) × (limits.signs ≡ 32) × T (one_of (word_of here) names) }
    ensures { OneArm (the s.now (counts limits) ARM here table.old) result table.new }
{
    let (matched, next) = pattern(s, table, here, limits)?;
    let (test, next) = guard(s, table, next, limits)?;
    let (_, begin) = expect(s, next, word::FAT_ARROW)?;
    let (body, next) = body(s, table, begin, limits.plain())?;
    let row = valued_row(
        kind::ARM,
        matched.start,
        body.end,
        test.children + 2,
        test.children,
    );
    let (_, next) = finish(table, row, next, here.rows)?;
    arm_comma(s, next, begin.word())
}

// A body that begins with `{` is a block; another is an expr.
#[cycle(exprs)]
fn body(s: &[u8], table: &mut [u64], here: Here, limits: Limits) -> Read
    requires { Stands s.now here }
    ensures { Bodied s.now here table.old limits result table.new }
{
    if here.word() == word::CURLY_LEFT {
        return block(s, table, here, limits);
    }
    if !can_begin_expr(here.word()) {
        return unusable(here);
    }
    expr(s, table, here, limits, true)
}

// The comma is optional behind a block; behind an expr no arm follows without it.
fn arm_comma(s: &[u8], here: Here, begin: u64) -> Result<Arm, Refusal>
    ensures { result ≡ arm_end s.now here begin }
{
    if here.word() == word::COMMA {
        let (_, next) = take(s, here)?;
        return Ok(Arm::Followed(next));
    }
    if begin == word::CURLY_LEFT {
        return Ok(Arm::Followed(here));
    }
    Ok(Arm::Last(here))
}

// Perhaps `if expr`: 1 child, or 0.
#[cycle(exprs)]
fn guard(s: &[u8], table: &mut [u64], here: Here, limits: Limits) -> Read
    requires { Stands s.now here }
    ensures { Guarded s.now here table.old limits result table.new }
{
    if here.word() != word::IF {
        return part(0, here);
    }
    let (_, next) = take(s, here)?;
    let (_, next) = expr(s, table, next, limits.plain(), true)?;
    part(1, next)
}

// `{ statements [last] }`
#[cycle(exprs)]
fn block(s: &[u8], table: &mut [u64], here: Here, limits: Limits) -> Read
    requires { Stands s.now here }
    ensures { Answers (the s.now (counts limits) BLOCK here table.old) 1 result table.new }
{
    let (opening, inside) = open(s, here, word::CURLY_LEFT, limits)?;
    stmts(s, table, inside, limits.opened(), opening.start)
}

// The statements of a block that began at `start`, from behind its `{` on.
#[cycle(exprs)]
fn stmts(s: &[u8], table: &mut [u64], at: Here, limits: Limits, start: usize) -> Read
    requires { (Stands s.now at) × (limits.signs ≡ 32) }
    ensures { Stated s.now at table.old limits start result table.new }
{
    let mut here = at;
    let mut children: u64 = 0;
    let mut last: u64 = 0;
    while can_begin_statement(here.word()) {
        let read = stmt(s, table, here, limits)?;
        children += 1;
        match read {
            Stmt::Ended(next) => {
                here = next;
                last = 0;
            }
            Stmt::Four(next) => {
                here = next;
                last = 1;
            }
            Stmt::Last(next) => return braced(
                s,
                table,
                next,
                kind::BLOCK,
                start,
                children,
                1,
                at.rows,
            ),
        }
    }
    braced(s, table, here, kind::BLOCK, start, children, last, at.rows)
}

// A statement and how it ended.
#[cycle(exprs)]
fn stmt(s: &[u8], table: &mut [u64], here: Here, limits: Limits) -> Result<Stmt, Refusal>
    requires { (Stands s.now here) × (limits.signs ≡ 32) }
    ensures { (Statement s.now here table.old limits result table.new) × (BeyondStatement s.now here result) }
{
    if here.word() == word::IMPORT {
        return ended(import(s, table, here, limits));
    }
    if here.word() == word::LET {
        return ended(let_stmt(s, table, here, limits));
    }
    if is_four(here.word()) {
        let (_, next) = four(s, table, here, limits)?;
        if next.word() != word::SEMI_COLON {
            return Ok(Stmt::Four(next));
        }
        return ended(take(s, next));
    }
    if !can_begin_expr(here.word()) {
        return ended(unusable(here));
    }
    let (_, next) = expr(s, table, here, limits, true)?;
    if next.word() != word::SEMI_COLON {
        return Ok(Stmt::Last(next));
    }
    ended(take(s, next))
}

// `let name [: type] = expr ;`
#[cycle(exprs)]
fn let_stmt(s: &[u8], table: &mut [u64], here: Here, limits: Limits) -> Read
    requires { (Stands s.now here) × (word_of here ≡ 'let') }
    ensures { Answers (the s.now (counts limits) LET here table.old) 1 result table.new }
{
    let after = limits.plain();
    let (word, next) = take(s, here)?;
    let (_, next) = identifier(s, table, next)?;
    let (ty, next) = typing(s, table, next, after, word::COLON)?;
    let (_, next) = expect(s, next, word::EQ)?;
    let (_, next) = expr(s, table, next, after, true)?;
    let (ending, next) = expect(s, next, word::SEMI_COLON)?;
    let row = valued_row(
        kind::LET,
        word.start,
        ending.end,
        ty.children + 2,
        ty.children,
    );
    finish(table, row, next, here.rows)
}

// Declarations up to the end of the source, and the tree's row over them. `tests`: by the old grammar, in which `test` is one (C-22).
fn tree(s: &[u8], table: &mut [u64], tests: bool) -> Read
    ensures { Finished tests true s.now table.old result table.new }
{
    if MOST_BYTES < s.len() {
        return refuse(refusal::TOO_LONG, MOST_BYTES, MOST_BYTES);
    }
    let limits = Limits::all();
    let mut here = look(s, Cursor::new(), 0);
    let mut children: u64 = 0;
    while begins_declaration(here.word(), tests) {
        let (_, next) = declaration(s, table, here, limits)?;
        here = next;
        children += 1;
    }
    if here.word() != word::NONE {
        return unusable(here);
    }
    finish(table, plain_row(kind::TREE, 0, s.len(), children), here, 0)
}

// One expression and the end of the source.
fn expression(s: &[u8], table: &mut [u64]) -> Read
    ensures { Finished false false s.now table.old result table.new }
{
    if MOST_BYTES < s.len() {
        return refuse(refusal::TOO_LONG, MOST_BYTES, MOST_BYTES);
    }
    let first = look(s, Cursor::new(), 0);
    let (found, next) = expr(s, table, first, Limits::all(), true)?;
    if next.word() != word::NONE {
        return unusable(next);
    }
    Ok((found, next))
}
