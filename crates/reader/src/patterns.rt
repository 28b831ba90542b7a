// Patterns of a match.
ghost use Rattle.std.specs.Prelude.{◌≡◌};
ghost use Rattle.grammar.specs.Words.{open_paren, close_paren};
ghost use Rattle.grammar.specs.Kinds.{PATTERN, NAMES};
ghost use Rattle.parser.specs.Places.{word_of};
ghost use Rattle.parser.specs.Counted.{counts};
ghost use Rattle.parser.specs.Going.{Stands, Answers};
ghost use Rattle.promises.specs.Promises.{the, Listed};

use super::names::{identifier, leaf};
use super::parts::valued_row;
use parser::{Here, Limits, Read, close, finish, open, plain_row, take, unusable};
use rows::kind;
use tokens::word;
use words::is_name;

// A name other than `_` with perhaps `( list of names )`, or `_` alone.
pub fn pattern(s: &[u8], table: &mut [u64], here: Here, limits: Limits) -> Read
    requires { Stands s.now here }
    ensures { Answers (the s.now (counts limits) PATTERN here table.old) 1 result table.new }
{
    if here.word() == word::UNDERSCORE {
        return leaf(s, table, here, kind::ANY);
    }
    if here.word() != word::NAME {
        return unusable(here);
    }
    let (name, next) = leaf(s, table, here, kind::NAME)?;
    if next.word() != word::ROUND_LEFT {
        return finish(
            table,
            plain_row(kind::VARIANT, name.start, name.end, 1),
            next,
            here.rows,
        );
    }
    let (list, next) = names(s, table, next, limits)?;
    let row = valued_row(kind::VARIANT, name.start, list.end, list.children + 1, 1);
    finish(table, row, next, here.rows)
}

// `( list of names )`
// kept: no `separated` over closures for this and the other lists in brackets; document 01 asks for one list rule per kind of item, with one proof.
fn names(s: &[u8], table: &mut [u64], at: Here, limits: Limits) -> Read
    requires { Stands s.now at }
    ensures { Listed s.now at table.old limits open_paren NAMES close_paren result table.new }
{
    let (opening, inside) = open(s, at, word::ROUND_LEFT, limits)?;
    let mut here = inside;
    let mut children: u64 = 0;
    while is_name(here.word()) {
        let (_, next) = identifier(s, table, here)?;
        children += 1;
        if next.word() != word::COMMA {
            return close(s, next, word::ROUND_RIGHT, opening.start, children);
        }
        let (_, after) = take(s, next)?;
        here = after;
    }
    close(s, here, word::ROUND_RIGHT, opening.start, children)
}
