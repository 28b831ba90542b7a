// Declarations.
ghost use Rattle.std.specs.Prelude.{◌≡◌, T};
ghost use Rattle.rows.specs.Kinds as kinds;
ghost use Rattle.grammar.specs.Words.{'const', 'fn', 'test', filter_words};
ghost use Rattle.grammar.specs.Grammar.{one_of};
ghost use Rattle.grammar.specs.Rows.{detail_for};
ghost use Rattle.grammar.specs.Kinds.{DECLARATION};
ghost use Rattle.parser.specs.Places.{word_of};
ghost use Rattle.parser.specs.Counted.{counts};
ghost use Rattle.parser.specs.Going.{Stands, Answers};
ghost use Rattle.promises.specs.Promises.{the};

use super::imports::import;
use super::names::identifier;
use super::parts::{detail_row, valued_row};
use super::types::{type_expr, typed_names, typing};
use super::{block, expr};
use parser::{Here, Limits, Read, expect, finish, plain_row, take, unusable};
use rows::kind;
use tokens::word;

// `const name : type = expr ;`
fn constant(s: &[u8], table: &mut [u64], here: Here, limits: Limits) -> Read
    requires { (Stands s.now here) × (word_of here ≡ 'const') }
    ensures { Answers (the s.now (counts limits) DECLARATION here table.old) 1 result table.new }
{
    let after = limits.plain();
    let (word, next) = take(s, here)?;
    let (_, next) = identifier(s, table, next)?;
    let (_, next) = expect(s, next, word::COLON)?;
    let (_, next) = type_expr(s, table, next, after)?;
    let (_, next) = expect(s, next, word::EQ)?;
    let (_, next) = expr(s, table, next, after, true)?;
    let (ending, next) = expect(s, next, word::SEMI_COLON)?;
    finish(
        table,
        plain_row(kind::CONST, word.start, ending.end, 3),
        next,
        here.rows,
    )
}

// `fn name (params) [-> type] block`
fn function(s: &[u8], table: &mut [u64], here: Here, limits: Limits) -> Read
    requires { (Stands s.now here) × (word_of here ≡ 'fn') }
    ensures { Answers (the s.now (counts limits) DECLARATION here table.old) 1 result table.new }
{
    let after = limits.plain();
    let (word, next) = take(s, here)?;
    let (_, next) = identifier(s, table, next)?;
    let (params, next) = typed_names(s, table, next, after, word::ROUND_LEFT)?;
    let (ty, next) = typing(s, table, next, after, word::ARROW)?;
    let (body, next) = block(s, table, next, after)?;
    let row = valued_row(
        kind::FN,
        word.start,
        body.end,
        params.children + ty.children + 2,
        ty.children,
    );
    finish(table, row, next, here.rows)
}

// `filter` or `filtermap name (params) block`
fn filter_map(s: &[u8], table: &mut [u64], here: Here, limits: Limits) -> Read
    requires { (Stands s.now here) × (T (one_of (word_of here) filter_words)) }
    ensures { Answers (the s.now (counts limits) DECLARATION here table.old) 1 result table.new }
{
    let after = limits.plain();
    let (word, next) = take(s, here)?;
    let (_, next) = identifier(s, table, next)?;
    let (params, next) = typed_names(s, table, next, after, word::ROUND_LEFT)?;
    let (body, next) = block(s, table, next, after)?;
    let row = detail_row(
        kind::FILTER,
        word.start,
        body.end,
        params.children + 2,
        filter_detail(here.word()),
    );
    finish(table, row, next, here.rows)
}

fn filter_detail(word: u64) -> u64
    requires { T (one_of word filter_words) }
    ensures { result ≡ detail_for kinds.FILTER word }
{
    if word == word::FILTER { 1 } else { 2 }
}

// `test name block`
fn test(s: &[u8], table: &mut [u64], here: Here, limits: Limits) -> Read
    requires { (Stands s.now here) × (word_of here ≡ 'test') }
    ensures { Answers (the s.now (counts limits) DECLARATION here table.old) 1 result table.new }
{
    let after = limits.plain();
    let (word, next) = take(s, here)?;
    let (_, next) = identifier(s, table, next)?;
    let (body, next) = block(s, table, next, after)?;
    finish(
        table,
        plain_row(kind::TEST, word.start, body.end, 2),
        next,
        here.rows,
    )
}

pub fn declaration(s: &[u8], table: &mut [u64], here: Here, limits: Limits) -> Read
    requires { Stands s.now here }
    ensures { Answers (the s.now (counts limits) DECLARATION here table.old) 1 result table.new }
{
    let word = here.word();
    match word {
        word::CONST => constant(s, table, here, limits),
        word::FN => function(s, table, here, limits),
        word::FILTER | word::FILTERMAP => filter_map(s, table, here, limits),
        word::IMPORT => import(s, table, here, limits),
        word::TEST => test(s, table, here, limits),
        _ => unusable(here),
    }
}
