// The place of each child of a row, by how far the row is.
ghost use Rattle.std.specs.Prelude.{◌≡◌};
ghost use Rattle.places.specs.Under.{at_phase, operands_at, under_operand, body_at, in_arm, in_match, under};
ghost use Rattle.places.specs.Meant.{meant};
ghost use Rattle.canon.specs.Layout as canon;

use super::{Mark, OPERAND, Place, SIGNED, Unless, binary_level, is_four, left_level};
use rows::kind;

fn at(number: u64, phase: u64, c: Place) -> Place
    ensures { meant result ≡ at_phase number phase (meant c) }
{
    if phase == number {
        return c;
    }
    Place::whole()
}

fn operands(detail: u64, phase: u64, c: Place) -> Place
    ensures { meant result ≡ operands_at detail phase (meant c) }
{
    match phase {
        0 => c.left(left_level(detail)),
        1 => c.right(binary_level(detail) + 1),
        _ => Place::whole(),
    }
}

fn body(child: u64) -> Place
    ensures { meant result ≡ body_at child }
{
    if child == kind::BLOCK {
        return Place::whole();
    }
    Place::asks(0, true, Unless::Brace)
}

fn in_arm(value: u64, phase: u64, child: u64) -> Place
    ensures { meant result ≡ in_arm value phase child }
{
    if value == 0 {
        return at(1, phase, body(child));
    }
    at(2, phase, body(child))
}

fn in_match(phase: u64, more: bool) -> Place
    ensures { meant result ≡ in_match phase more }
{
    if phase == 0 {
        return Place::head();
    }
    Place::with_more(more)
}

fn in_block(child: u64) -> Place
    ensures { meant result ≡ canon.statement child }
{
    if is_four(child) {
        return Place::whole();
    }
    Place::asks(0, true, Unless::Four)
}

#[tactic(auto, unfolding(crate::specs::Under::under_operand))]
fn operand(row: Mark, c: Place, phase: u64) -> Place
    ensures { meant result ≡ under_operand row.kind row.detail (meant c) phase }
{
    match row.kind {
        kind::BINARY => operands(row.detail, phase, c),
        kind::NOT | kind::NEGATE => at(0, phase, c.right(SIGNED)),
        kind::CALL | kind::QUESTION => at(0, phase, c.left(OPERAND)),
        kind::ACCESS => at(0, phase, c.left(OPERAND).pathless()),
        kind::ASSIGN => at(1, phase, c.right(1)),
        kind::RETURN => at(0, phase, c.right(0)),
        _ => Place::whole(),
    }
}

// The place of the next child, of this kind.
#[tactic(auto, unfolding(crate::specs::Under::under))]
pub fn place_under(row: Mark, c: Place, phase: u64, child: u64, more: bool) -> Place
    ensures { meant result ≡ under row.kind row.value row.detail (meant c) phase child more }
{
    match row.kind {
        kind::IF | kind::WHILE => at(0, phase, Place::head()),
        kind::FOR => at(1, phase, Place::head()),
        kind::MATCH => in_match(phase, more),
        kind::ARM => in_arm(row.value, phase, child),
        kind::BLOCK => in_block(child),
        _ => operand(row, c, phase),
    }
}
