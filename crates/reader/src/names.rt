// Names and paths.
ghost use Rattle.grammar.specs.Kinds.{NAME, FIELD_NAME, PATH_ITEM, PATH};
ghost use Rattle.parser.specs.Going.{Stands};
ghost use Rattle.promises.specs.Firsts.{undotted};
ghost use Rattle.parser.specs.Places.{start_of, end_of, plain_row};
ghost use Rattle.promises.specs.Promises.{Anyhow, Wrote};

use parser::{Here, Read, finish, plain_row, take, unusable};
use rows::kind;
use tokens::word;
use words::{is_name, is_path_item};

// A token that is a row of a kind by itself.
pub fn leaf(s: &[u8], table: &mut [u64], here: Here, kind: u64) -> Read
    ensures { Wrote s.now here table.old (plain_row kind (start_of here) (end_of here) 0) here.rows result table.new }
{
    let (token, next) = take(s, here)?;
    let row = plain_row(kind, token.start, token.end, 0);
    finish(table, row, next, here.rows)
}

pub fn identifier(s: &[u8], table: &mut [u64], here: Here) -> Read
    requires { Stands s.now here }
    ensures { (Anyhow s.now NAME here table.old 3 result table.new) × (Anyhow s.now FIELD_NAME here table.old 3 result table.new) }
{
    if !is_name(here.word()) {
        return unusable(here);
    }
    leaf(s, table, here, kind::NAME)
}

pub fn path_item(s: &[u8], table: &mut [u64], here: Here) -> Read
    requires { Stands s.now here }
    ensures { Anyhow s.now PATH_ITEM here table.old 3 result table.new }
{
    if !is_path_item(here.word()) {
        return unusable(here);
    }
    leaf(s, table, here, kind::NAME)
}

pub fn path(s: &[u8], table: &mut [u64], at: Here) -> Read
    requires { Stands s.now at }
    ensures { (Anyhow s.now PATH at table.old 2 result table.new) × (undotted result) }
{
    let (first, next) = path_item(s, table, at)?;
    let mut end = first.end;
    let mut here = next;
    let mut children: u64 = 1;
    while here.word() == word::PERIOD {
        let (_, behind) = take(s, here)?;
        let (found, next) = path_item(s, table, behind)?;
        end = found.end;
        here = next;
        children += 1;
    }
    finish(
        table,
        plain_row(kind::PATH, first.start, end, children),
        here,
        at.rows,
    )
}
