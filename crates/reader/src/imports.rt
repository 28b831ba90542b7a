// Import paths and imports.
ghost use Rattle.std.specs.Prelude.{◌≡◌, ◌≤◌};
ghost use Rattle.grammar.specs.Words.{open_brace, 'import'};
ghost use Rattle.grammar.specs.Kinds.{IMPORT, IMPORTED, IMPORTPATH};
ghost use Rattle.parser.specs.Places.{word_of};
ghost use Rattle.parser.specs.Counted.{counts};
ghost use Rattle.parser.specs.Going.{Stands, Answers};
ghost use Rattle.promises.specs.Promises.{the, Grouped};

use super::names::path_item;
use super::parts::braced;
use parser::{Here, Limits, Read, expect, finish, open, plain_row, take, unusable};
use rows::kind;
use tokens::word;
use words::is_path_item;

// Items joined by `.`, at the end perhaps a group.
#[cycle(imports)]
fn import_path(s: &[u8], table: &mut [u64], at: Here, limits: Limits) -> Read
    requires { Stands s.now at }
    ensures { Answers (the s.now (counts limits) IMPORTPATH at table.old) 2 result table.new }
{
    let (first, next) = path_item(s, table, at)?;
    let mut end = first.end;
    let mut here = next;
    let mut children: u64 = 1;
    while here.word() == word::PERIOD {
        let (_, behind) = take(s, here)?;
        if behind.word() == word::CURLY_LEFT {
            return import_group(s, table, behind, limits, first.start, children, at.rows);
        }
        if !is_path_item(behind.word()) {
            return unusable(behind);
        }
        let (found, next) = path_item(s, table, behind)?;
        end = found.end;
        here = next;
        children += 1;
    }
    finish(
        table,
        plain_row(kind::IMPORT_PATH, first.start, end, children),
        here,
        at.rows,
    )
}

// The group of an import path that began at `start` and has so many items; one path or more, no trailing comma.
#[cycle(imports)]
fn import_group(
    s: &[u8],
    table: &mut [u64],
    at: Here,
    limits: Limits,
    start: usize,
    items: u64,
    since: usize,
) -> Read
    requires { (Stands s.now at) × (word_of at ≡ open_brace) × (items ≤ at.rows) }
    ensures { Grouped s.now at table.old limits start items since result table.new }
{
    let (_, inside) = open(s, at, word::CURLY_LEFT, limits)?;
    let inner = limits.opened();
    let mut here = inside;
    let mut children = items;
    loop {
        let (_, next) = import_path(s, table, here, inner)?;
        children += 1;
        if next.word() != word::COMMA {
            return braced(s, table, next, kind::IMPORT_PATH, start, children, 0, since);
        }
        let (_, after) = take(s, next)?;
        here = after;
    }
}

// `import importpath ;`
pub fn import(s: &[u8], table: &mut [u64], here: Here, limits: Limits) -> Read
    requires { (Stands s.now here) × (word_of here ≡ 'import') }
    ensures { Answers (the s.now (counts limits) IMPORT here table.old) 1 result table.new }
{
    let (_, next) = take(s, here)?;
    let (found, next) = imported(s, table, next, limits.plain())?;
    let (_, behind) = expect(s, next, word::SEMI_COLON)?;
    Ok((found, behind))
}

fn imported(s: &[u8], table: &mut [u64], here: Here, limits: Limits) -> Read
    requires { Stands s.now here }
    ensures { Answers (the s.now (counts limits) IMPORTED here table.old) 1 result table.new }
{
    let (found, next) = import_path(s, table, here, limits)?;
    finish(
        table,
        plain_row(kind::IMPORT, found.start, found.end, 1),
        next,
        here.rows,
    )
}
