// What a constant comes to: its expression is translated into a list of stack instructions, one a row, and the list is run.
#![tactic(auto)]

ghost use Rattle.std.specs.Prelude.{◌≡◌, false, ◌+◌, ◌-◌, ◌*◌, ◌/◌, ◌≤◌, ◌<◌, length};
ghost use Rattle.rows.specs.Rows.{width};
ghost use Rattle.machine.specs.Machine.{instrs, wide};
ghost use Rattle.constants.specs.Trees.{row_at};
ghost use Rattle.constants.specs.Types.{compares, type_of, text_at, named_of, declared_of, float_number, float_bits, fine, integer_fault, float_fault, operator_fault, fault_number};
ghost use Rattle.constants.specs.Lists.{refused, fault_of, instr_of};
ghost use Rattle.constants.specs.Answers.{answer_of, type_for, value_bits, is_constant, Permitted};
ghost use Rattle.constants.specs.Steps.{row_of, wanted_of, left_of, fault_at, stored, codes_at, run_at, worked_at, found_from, numbered_at, Table, Placed, WroteAt, WroteFor};

use chars::{Answer, refusal};
use machine::{BOOL, F64, Instruction, Stop, Value};
use reader::entries;
use rows::{WIDTH, kind};

// No such constant, too many rows, another declared type, a form not taken, a wrong type, too large a literal.
pub const NOT_TAKEN: u64 = 15;

// An integer divisor is zero.
pub const ZERO_DIVISOR: u64 = 16;

// The type wanted under a comparison: i64, without suffixes. No declared type has this number.
// kept: a type is a number and no enum, as the list, document 01's rows and the C interface have it.
const BARE: u64 = 0;

// i64 by its own number, and the last of the integer types, u64.
const I64: u64 = 4;

const U64: u64 = 8;

// The comparisons among the operators, and the operators on truth values before them.
const FIRST_COMPARISON: u64 = 3;

const LAST_COMPARISON: u64 = 8;

const LAST_OPERATOR: u64 = 13;

// The greatest literal by the type wanted: i64 without suffixes, then i8 to i64, then u8 to u64.
const GREATEST: [u64; 9] = [
    i64::MAX as u64,
    i8::MAX as u64,
    i16::MAX as u64,
    i32::MAX as u64,
    i64::MAX as u64,
    u8::MAX as u64,
    u16::MAX as u64,
    u32::MAX as u64,
    u64::MAX,
];

// A constant that was worked out: its value, its declared type and how many instructions gave it.
#[derive(Clone, Copy)]
pub struct Finished {
    pub value: Value,
    pub ty: u64,
    pub count: usize,
}

// It, or the refusal.
pub type Constant = Result<Finished, Answer>;

// A row, read from a table.
#[derive(Clone, Copy)]
struct Row {
    kind: u64,
    start: u64,
    end: u64,
    children: u64,
    value: u64,
    detail: u64,
    size: u64,
}

fn read(table: &[u64], i: usize) -> Row
    requires { i * width + width ≤ length table.now }
    ensures { row_of result ≡ row_at table.now i }
{
    let at = i * WIDTH;
    Row {
        kind: table[at],
        start: table[at + 1],
        end: table[at + 2],
        children: table[at + 3],
        value: table[at + 4],
        detail: table[at + 5],
        size: table[at + 6],
    }
}

// A refusal with a place.
fn refused(number: u64, start: u64, end: u64) -> Answer
    ensures { result ≡ refused number start end }
{
    Answer {
        number,
        start: start as usize,
        end: end as usize,
        count: 0,
    }
}

// A constant has its name, its type and its expression under it.
#[tactic(auto, unfolding(crate::specs::Answers::is_constant))]
fn is_constant(row: Row) -> bool
    ensures { result ≡ is_constant row.kind row.children }
{
    (row.kind == kind::CONST) & (row.children == 3)
}

// The row of the constant with a number, from 0, if there is one.
fn find(table: &[u64], count: usize, number: u64) -> Option<usize>
    requires { count * width ≤ length table.now }
    ensures { result ≡ found_from table.now 0 count number }
{
    // kept: no chain of `filter` and `nth`, whose count is a `usize` and not the caller's u64.
    let mut left = number;
    for i in 0..count {
        if is_constant(read(table, i)) {
            if left == 0 {
                return Some(i);
            }
            left -= 1;
        }
    }
    None
}

// The part of the source that a row spans; the empty part where it doesn't fit.
#[tactic(auto, unfolding(crate::specs::Types::text_at))]
fn text(s: &[u8], start: u64, end: u64) -> &[u8]
    ensures { result.now ≡ text_at s.now start end }
{
    s.get(start as usize..end as usize).unwrap_or(b"")
}

// The number of a type by its name: 1 to 8 for i8 to u64, 10 f64, 12 bool.
// kept: as a match on byte texts its proof falls into thirty goals by lengths and bytes, which `search` gives up on.
#[tactic(auto, unfolding(crate::specs::Types::named_of, chars::specs::Texts::bytes))]
fn named(t: &[u8]) -> Option<u64>
    ensures { result ≡ named_of t.now }
{
    if chars::same(t, b"i8") {
        return Some(1);
    }
    if chars::same(t, b"i16") {
        return Some(2);
    }
    if chars::same(t, b"i32") {
        return Some(3);
    }
    if chars::same(t, b"i64") {
        return Some(I64);
    }
    if chars::same(t, b"u8") {
        return Some(5);
    }
    if chars::same(t, b"u16") {
        return Some(6);
    }
    if chars::same(t, b"u32") {
        return Some(7);
    }
    if chars::same(t, b"u64") {
        return Some(U64);
    }
    if chars::same(t, b"f64") {
        return Some(F64);
    }
    if chars::same(t, b"bool") {
        return Some(BOOL);
    }
    None
}

// The type that a type's row names.
#[tactic(auto, unfolding(crate::specs::Types::declared_of))]
fn declared(s: &[u8], row: Row) -> Option<u64>
    ensures { result ≡ declared_of s.now row.kind row.start row.end }
{
    if row.kind == kind::PATH_TYPE {
        named(text(s, row.start, row.end))
    } else {
        None
    }
}

// The type wanted of a row with so many rows still under a comparison.
#[tactic(auto, unfolding(crate::specs::Steps::wanted_of))]
fn wanted(declared: u64, left: u64) -> u64
    ensures { result ≡ wanted_of declared left }
{
    if left == 0 { declared } else { BARE }
}

#[tactic(auto, unfolding(crate::specs::Types::compares))]
fn compares(row: Row) -> bool
    ensures { result ≡ compares row.kind row.detail }
{
    (row.kind == kind::BINARY)
        & ((FIRST_COMPARISON <= row.detail) & (row.detail <= LAST_COMPARISON))
}

// How many rows before this one are under a comparison.
#[tactic(auto, unfolding(crate::specs::Steps::left_of))]
fn under(left: u64, row: Row) -> u64
    ensures { result ≡ left_of left row.kind row.detail row.size }
{
    if 0 < left {
        left - 1
    } else if compares(row) {
        row.size.saturating_sub(1)
    } else {
        0
    }
}

// No refusal, or that it isn't taken.
#[tactic(auto, unfolding(crate::specs::Types::fine))]
fn fine(b: bool) -> Option<u64>
    ensures { result ≡ fine b }
{
    if b { None } else { Some(NOT_TAKEN) }
}

// An integer fits the type wanted, and its suffix, where it has one, is that type.
#[tactic(auto, unfolding(crate::specs::Types::integer_fault, crate::specs::Types::fine))]
fn integer_fault(w: u64, value: u64, detail: u64) -> Option<u64>
    ensures { result ≡ integer_fault w value detail }
{
    if w <= U64 {
        return fine(((detail == 0) | (detail == w)) & (value <= GREATEST[w as usize]));
    }
    Some(NOT_TAKEN)
}

// C-17's answer to a float's text; its suffix is `f64` or none.
#[tactic(auto, using(crate::proofs::Told::number_said, crate::proofs::Told::float_long, crate::proofs::Told::float_short))]
fn float_fault(s: &[u8], w: u64, row: Row) -> Option<u64>
    ensures { result ≡ float_fault (float_number s.now row.start row.end) w row.detail }
{
    let a = literals::float(text(s, row.start, row.end));
    if a.number == refusal::TOO_MANY_DIGITS {
        return Some(refusal::TOO_MANY_DIGITS);
    }
    fine((a.number == refusal::NONE) & (w == F64) & ((row.detail == 0) | (row.detail == F64)))
}

// The bits of a float by its text.
#[tactic(auto, using(crate::proofs::Told::bits_said))]
fn float_bits(s: &[u8], start: u64, end: u64) -> u64
    ensures { result ≡ float_bits s.now start end }
{
    literals::float(text(s, start, end)).bits
}

// An operator: `||`, `&&` and the comparisons give a bool, the others what they take.
#[tactic(auto, unfolding(crate::specs::Types::operator_fault))]
fn operator_fault(w: u64, detail: u64) -> Option<u64>
    ensures { result ≡ operator_fault w detail }
{
    if detail <= LAST_COMPARISON {
        return fine((1 <= detail) & (w == BOOL));
    }
    fine((detail <= LAST_OPERATOR) & ((w <= U64) | (w == F64)))
}

// What a row is refused with where a type is wanted of it, 15 or 14, if it is.
#[tactic(auto, unfolding(crate::specs::Types::fault_number))]
fn fault_number(s: &[u8], w: u64, row: Row) -> Option<u64>
    ensures { result ≡ fault_number s.now w row.kind row.start row.end row.children row.value row.detail }
{
    match (row.kind, row.children) {
        (kind::INTEGER, 0) => integer_fault(w, row.value, row.detail),
        (kind::FLOAT, 0) => float_fault(s, w, row),
        (kind::BOOL, 0) => fine(w == BOOL),
        (kind::BINARY, 2) => operator_fault(w, row.detail),
        (kind::NOT, 1) => fine(w == BOOL),
        (kind::NEGATE, 1) => fine((w <= I64) | (w == F64)),
        _ => Some(NOT_TAKEN),
    }
}

// A row's refusal, if there is one.
#[tactic(auto, unfolding(crate::specs::Lists::fault_of))]
fn fault_of(s: &[u8], w: u64, row: Row) -> Option<Answer>
    ensures { result ≡ fault_of s.now w (row_of row) }
{
    let number = fault_number(s, w, row)?;
    Some(refused(number, row.start, row.end))
}

// An instruction's type: under a comparison it is i64.
#[tactic(auto, unfolding(crate::specs::Types::type_of))]
fn type_of(w: u64) -> u64
    ensures { result ≡ type_of w }
{
    if w == BARE { I64 } else { w }
}

// The instruction of a row of which a type is wanted; its value is an operator's number, a float's bits, a literal's value.
#[tactic(auto, unfolding(crate::specs::Lists::instr_of, crate::specs::Meaning::held_of))]
fn instruction_of(s: &[u8], w: u64, row: Row) -> Instruction
    ensures { result ≡ instr_of s.now w (row_of row) }
{
    let value = match row.kind {
        kind::BINARY => row.detail,
        kind::FLOAT => float_bits(s, row.start, row.end),
        _ => row.value,
    };
    Instruction {
        kind: row.kind,
        ty: type_of(w),
        value,
        start: row.start,
        end: row.end,
    }
}

#[tactic(auto, unfolding(crate::specs::Steps::stored))]
fn put(list: &mut [u64], i: usize, x: Instruction)
    requires { i * wide + wide ≤ length list.old }
    ensures { list.new ≡ stored list.old i x.kind x.ty x.value x.start x.end }
{
    let at = i * machine::WIDTH;
    list[at] = x.kind;
    list[at + 1] = x.ty;
    list[at + 2] = x.value;
    list[at + 3] = x.start;
    list[at + 4] = x.end;
}

// The rows of an expression in a table, its source, and the type wanted of it.
#[derive(Clone, Copy)]
struct Expression<'a> {
    source: &'a [u8],
    table: &'a [u64],
    first: usize,
    count: usize,
    ty: u64,
    ghost within: { (first + count) * width ≤ length table.now },
}

impl Expression<'_> {
    // The first refusal in table order: the last that is met from the last row to the first.
    fn check(&self) -> Option<Answer>
        ensures { result ≡ fault_at self.now.source.now self.now.table.now self.now.first self.now.count self.now.ty }
    {
        let mut fault = None;
        // kept: no chain of iterators, since each row moves the count of those still under a comparison.
        let mut left = 0;
        for i in (0..self.count).rev() {
            let row = read(self.table, self.first + i);
            fault = fault_of(self.source, wanted(self.ty, left), row).or(fault);
            left = under(left, row);
        }
        fault
    }

    // The list of its rows, written from the last to the first.
    fn translate(&self, list: &mut [u64])
        requires { self.now.count * wide ≤ length list.old }
        ensures { (length list.new ≡ length list.old) × (instrs list.new 0 self.now.count ≡ codes_at self.now.source.now self.now.table.now self.now.first self.now.count self.now.ty) }
    {
        // kept: no chain of iterators, since each row moves the count of those still under a comparison.
        let mut left = 0;
        for i in (0..self.count).rev() {
            let row = read(self.table, self.first + i);
            put(
                list,
                i,
                instruction_of(self.source, wanted(self.ty, left), row),
            );
            left = under(left, row);
        }
    }

    // Its list, run, where each row has the type wanted of it.
    fn run(&self, list: &mut [u64]) -> Constant
        requires { self.now.count ≤ 1024 }
        ensures { (result ≡ run_at self.now.source.now (length list.old / wide) self.now.table.now self.now.first self.now.count self.now.ty) × (length list.new ≡ length list.old) × WroteAt self.now.source.now self.now.table.now (self.now.first + self.now.count) list.new result }
    {
        if list.len() / machine::WIDTH < self.count {
            return Err(Answer {
                number: refusal::NO_ROOM,
                start: 0,
                end: 0,
                count: self.count,
            });
        }
        self.translate(list);
        match machine::run(list, self.count) {
            Ok(value) => {
                rows::clear(list, self.count * machine::WIDTH);
                Ok(Finished {
                    value,
                    ty: self.ty,
                    count: self.count,
                })
            }
            Err(Stop::ZeroDivisor(start, end)) => Err(refused(ZERO_DIVISOR, start, end)),
            // No translation leaves the stack so.
            Err(Stop::Broken) => Err(refused(NOT_TAKEN, 0, 0)),
        }
    }
}

// The constant whose row is the one with an index: its expression's row stands before it, the type's before the expression's rows.
fn worked_out(s: &[u8], table: &[u64], row: usize, list: &mut [u64]) -> Constant
    requires { Placed table.now row }
    ensures { (result ≡ worked_at s.now (length list.old / wide) table.now row) × (length list.new ≡ length list.old) × WroteAt s.now table.now row list.new result }
{
    let top = read(table, row - 1);
    let n = top.size as usize;
    if machine::MOST < n {
        return Err(refused(NOT_TAKEN, top.start, top.end));
    }
    let first = row - n;
    let ty = read(table, first - 1);
    let Some(declared) = declared(s, ty) else {
        return Err(refused(NOT_TAKEN, ty.start, ty.end));
    };
    let expression = Expression {
        source: s,
        table,
        first,
        count: n,
        ty: declared,
    };
    match expression.check() {
        Some(a) => Err(a),
        None => expression.run(list),
    }
}

// The constant with a number, of the source with these rows.
fn numbered(s: &[u8], number: u64, table: &[u64], count: usize, list: &mut [u64]) -> Constant
    requires { Table table.now count }
    ensures { (result ≡ numbered_at s.now (length list.old / wide) table.now (found_from table.now 0 count number)) × (length list.new ≡ length list.old) × WroteFor s.now table.now (found_from table.now 0 count number) list.new result }
{
    match find(table, count, number) {
        Some(row) => worked_out(s, table, row, list),
        None => Err(refused(NOT_TAKEN, 0, 0)),
    }
}

// C-18: the value of the constant with a number, from 0, among the `const` declarations of a source; its rows and its instructions in lent tables.
pub fn evaluate(s: &[u8], number: u64, table: &mut [u64], list: &mut [u64]) -> Constant
    ensures { Permitted false s.now number (length table.old) (length list.old) result table.new list.new }
{
    let a = entries::tree(s, table);
    if a.number != refusal::NONE {
        rows::clear(list, 0);
        return Err(a);
    }
    let c = numbered(s, number, table, a.count, list);
    if c.is_err() {
        rows::clear(table, 0);
        rows::clear(list, 0);
    }
    c
}

// What a constant answers: number, place and count; the source has so many bytes.
pub fn answer(c: Constant, len: usize) -> Answer
    ensures { result ≡ answer_of len c }
{
    match c {
        Ok(f) => Answer {
            number: refusal::NONE,
            start: 0,
            end: len,
            count: f.count,
        },
        Err(a) => a,
    }
}

// kept: 0 for a refusal and no Option, since the C interface answers numbers alone (`constant_numbers`).
// Its declared type, 0 for a refusal.
pub fn declared_type(c: Constant) -> u64
    ensures { result ≡ type_for c }
{
    match c {
        Ok(f) => f.ty,
        Err(_) => 0,
    }
}

// kept: 0 for a refusal and no Option, as above.
// Its value in 64 bits (`machine::bits_of`), 0 for a refusal.
pub fn bits(c: Constant) -> u64
    ensures { result ≡ value_bits c }
{
    match c {
        Ok(f) => machine::bits_of(f.ty, f.value),
        Err(_) => 0,
    }
}
