// Types, and lists of names with types.
ghost use Rattle.std.specs.Prelude.{◌≡◌, ◌⊎◌, T};
ghost use Rattle.grammar.specs.Words.{open_paren, open_brace, open_bracket, close_bracket, ':', '->', path_items};
ghost use Rattle.grammar.specs.Grammar.{one_of};
ghost use Rattle.grammar.specs.Kinds.{TYPE, TYPE_BASE, TYPES, TYPED_NAMES, TYPED_NAME};
ghost use Rattle.parser.specs.Places.{word_of, end_of, plain_row};
ghost use Rattle.parser.specs.Counted.{counts};
ghost use Rattle.parser.specs.Going.{Stands, Answers};
ghost use Rattle.promises.specs.Firsts.{closing_of};
ghost use Rattle.promises.specs.Promises.{the, Wrote, Listed, Typing};

use super::names::{identifier, leaf, path};
use super::parts::{part, valued_row};
use parser::{Here, Limits, Node, Read, close, expect, finish, open, plain_row, take, unusable};
use rows::kind;
use tokens::word;
use words::{can_begin_type, closing_of, is_name, is_path_item};

// A type, then any number of `?`.
#[cycle(types)]
pub fn type_expr(s: &[u8], table: &mut [u64], at: Here, limits: Limits) -> Read
    requires { Stands s.now at }
    ensures { Answers (the s.now (counts limits) TYPE at table.old) 1 result table.new }
{
    let (first, next) = type_base(s, table, at, limits)?;
    let mut found = first;
    let mut here = next;
    while here.word() == word::QUESTION_MARK {
        let (marked, next) = question(s, table, found, here, kind::OPTION, at.rows)?;
        found = marked;
        here = next;
    }
    Ok((found, here))
}

// A `?` behind a type or an expr.
pub fn question(
    s: &[u8],
    table: &mut [u64],
    left: Node,
    here: Here,
    kind: u64,
    since: usize,
) -> Read
    ensures { Wrote s.now here table.old (plain_row kind left.start (end_of here) 1) since result table.new }
{
    let (mark, next) = take(s, here)?;
    finish(table, plain_row(kind, left.start, mark.end, 1), next, since)
}

#[cycle(types)]
fn type_base(s: &[u8], table: &mut [u64], here: Here, limits: Limits) -> Read
    requires { Stands s.now here }
    ensures { Answers (the s.now (counts limits) TYPE_BASE here table.old) 1 result table.new }
{
    if here.word() == word::BANG {
        return leaf(s, table, here, kind::NEVER);
    }
    if here.word() == word::ROUND_LEFT {
        return unit_type(s, table, here, limits);
    }
    if here.word() == word::CURLY_LEFT {
        return record_type(s, table, here, limits);
    }
    if is_path_item(here.word()) {
        return path_type(s, table, here, limits);
    }
    unusable(here)
}

fn unit_type(s: &[u8], table: &mut [u64], here: Here, limits: Limits) -> Read
    requires { (Stands s.now here) × (word_of here ≡ open_paren) }
    ensures { Answers (the s.now (counts limits) TYPE_BASE here table.old) 1 result table.new }
{
    let (opening, next) = open(s, here, word::ROUND_LEFT, limits)?;
    let (closing, next) = expect(s, next, word::ROUND_RIGHT)?;
    finish(
        table,
        plain_row(kind::UNIT, opening.start, closing.end, 0),
        next,
        here.rows,
    )
}

#[cycle(types)]
fn record_type(s: &[u8], table: &mut [u64], here: Here, limits: Limits) -> Read
    requires { (Stands s.now here) × (word_of here ≡ open_brace) }
    ensures { Answers (the s.now (counts limits) TYPE_BASE here table.old) 1 result table.new }
{
    let (list, next) = typed_names(s, table, here, limits, word::CURLY_LEFT)?;
    let row = plain_row(kind::RECORD_TYPE, list.start, list.end, list.children);
    finish(table, row, next, here.rows)
}

// A path with perhaps `[ list of types ]`.
#[cycle(types)]
fn path_type(s: &[u8], table: &mut [u64], here: Here, limits: Limits) -> Read
    requires { (Stands s.now here) × (T (one_of (word_of here) path_items)) }
    ensures { Answers (the s.now (counts limits) TYPE_BASE here table.old) 1 result table.new }
{
    let (base, next) = path(s, table, here)?;
    if next.word() != word::SQUARE_LEFT {
        return finish(
            table,
            plain_row(kind::PATH_TYPE, base.start, base.end, 1),
            next,
            here.rows,
        );
    }
    let (list, next) = types(s, table, next, limits)?;
    let row = valued_row(kind::PATH_TYPE, base.start, list.end, list.children + 1, 1);
    finish(table, row, next, here.rows)
}

// `[ list of types ]`
// kept: no `separated` over closures for this and the other lists in brackets; document 01 asks for one list rule per kind of item, with one proof.
#[cycle(types)]
fn types(s: &[u8], table: &mut [u64], at: Here, limits: Limits) -> Read
    requires { Stands s.now at }
    ensures { Listed s.now at table.old limits open_bracket TYPES close_bracket result table.new }
{
    let (opening, inside) = open(s, at, word::SQUARE_LEFT, limits)?;
    let inner = limits.opened();
    let mut here = inside;
    let mut children: u64 = 0;
    while can_begin_type(here.word()) {
        let (_, next) = type_expr(s, table, here, inner)?;
        children += 1;
        if next.word() != word::COMMA {
            return close(s, next, word::SQUARE_RIGHT, opening.start, children);
        }
        let (_, after) = take(s, next)?;
        here = after;
    }
    close(s, here, word::SQUARE_RIGHT, opening.start, children)
}

// A list of `name : type` in brackets of a kind.
// kept: no `separated` over closures for this and the other lists in brackets; document 01 asks for one list rule per kind of item, with one proof.
#[cycle(types)]
pub fn typed_names(s: &[u8], table: &mut [u64], at: Here, limits: Limits, bracket: u64) -> Read
    requires { (Stands s.now at) × ((bracket ≡ open_paren) ⊎ (bracket ≡ open_brace)) }
    ensures { Listed s.now at table.old limits bracket TYPED_NAMES (closing_of bracket) result table.new }
{
    let (opening, inside) = open(s, at, bracket, limits)?;
    let inner = limits.opened();
    let closing = closing_of(bracket);
    let mut here = inside;
    let mut children: u64 = 0;
    while is_name(here.word()) {
        let (_, next) = typed_name(s, table, here, inner)?;
        children += 1;
        if next.word() != word::COMMA {
            return close(s, next, closing, opening.start, children);
        }
        let (_, after) = take(s, next)?;
        here = after;
    }
    close(s, here, closing, opening.start, children)
}

// `name : type`
#[cycle(types)]
fn typed_name(s: &[u8], table: &mut [u64], here: Here, limits: Limits) -> Read
    requires { Stands s.now here }
    ensures { Answers (the s.now (counts limits) TYPED_NAME here table.old) 1 result table.new }
{
    let (name, next) = identifier(s, table, here)?;
    let (_, next) = expect(s, next, word::COLON)?;
    let (ty, next) = type_expr(s, table, next, limits.plain())?;
    finish(
        table,
        plain_row(kind::TYPED_NAME, name.start, ty.end, 2),
        next,
        here.rows,
    )
}

// Perhaps a sign and a type behind it: 1 child, or 0.
pub fn typing(s: &[u8], table: &mut [u64], here: Here, limits: Limits, sign: u64) -> Read
    requires { (Stands s.now here) × ((sign ≡ '->') ⊎ (sign ≡ ':')) }
    ensures { Typing s.now here table.old limits sign result table.new }
{
    if here.word() != sign {
        return part(0, here);
    }
    let (_, next) = take(s, here)?;
    let (_, next) = type_expr(s, table, next, limits.plain())?;
    part(1, next)
}
