// The constant's stack machine, and the list of instructions that it runs.
#![tactic(auto)]

ghost use Rattle.std.specs.Prelude.{◌≡◌, ◌+◌, ◌*◌, ◌<◌, ◌≤◌, List, [], ◌∷◌, length, reverse, take, Ok, Err, OnOk, OnErr, IfErr, IfSome, IfNone};
ghost use Rattle.machine.specs.declared.Value.{Value};
ghost use Rattle.machine.specs.Values.{op_of, integer_of, literal_value, single_of, double_of, part_of, whole_of, order_of, float_of, join_of, numbers_of, floats_of, truths_of, extended_of, float_bits, bits_of};
ghost use Rattle.machine.specs.Machine.{wide, instr_at, step_of, ended, ran_of};

use rows::kind;
use std::marker::Model;
use wholes::Integer;

// An instruction's numbers in the list: kind, type, value, start, end.
pub const WIDTH: usize = 5;

// As many instructions are run at most; no value is on the stack without one.
pub const MOST: usize = 1024;

// kept: a type is a number and no enum, as the list, document 01's rows and the C interface have it.
// The types of a constant: an integer's is the detail of its row (1 to 8, i8 to u64), a float's too, a bool's is its row's kind.
pub const F64: u64 = 10;

pub const BOOL: u64 = 12;

// The bits of infinity; with the sign's bit left out, a NaN's are above.
const INFINITY: u64 = 9218868437227405312;

const SIGN: u64 = 1 << 63;

// What is shown for a NaN, whose bits the language leaves open.
pub const NAN: u64 = 9221120237041090560;

#[derive(Clone, Copy)]
pub enum Value {
    Whole(u64),
    Float(f64),
    Truth(bool),
}

// Why a list gives no value.
#[derive(Clone, Copy, Debug, PartialEq, Eq)]
pub enum Stop {
    // An integer divisor is zero, at the row of this start and end.
    ZeroDivisor(u64, u64),
    // No list that a translation makes.
    Broken,
}

// An instruction, as its row has its numbers; a binary one has its operator for a value.
#[derive(Clone, Copy, Debug, PartialEq, Eq)]
pub struct Instruction {
    pub kind: u64,
    pub ty: u64,
    pub value: u64,
    pub start: u64,
    pub end: u64,
}

#[derive(Clone, Copy, Debug, PartialEq, Eq)]
pub enum Logic {
    Or,
    And,
}

#[derive(Clone, Copy, Debug, PartialEq, Eq)]
pub enum Order {
    Equal,
    Unequal,
    Less,
    AtMost,
    More,
    AtLeast,
}

#[derive(Clone, Copy, Debug, PartialEq, Eq)]
pub enum Sum {
    Plus,
    Minus,
    Times,
    Over,
    Rest,
}

// The thirteen operators.
#[derive(Clone, Copy, Debug, PartialEq, Eq)]
pub enum Op {
    Joins(Logic),
    Compares(Order),
    Counts(Sum),
}

// An operator by the detail of its row: `|| && == != < <= > >= + - * / %`.
#[tactic(auto, unfolding(crate::specs::Values::op_of))]
pub fn op_of(n: u64) -> Option<Op>
    ensures { result ≡ op_of n }
{
    Some(match n {
        1 => Op::Joins(Logic::Or),
        2 => Op::Joins(Logic::And),
        3 => Op::Compares(Order::Equal),
        4 => Op::Compares(Order::Unequal),
        5 => Op::Compares(Order::Less),
        6 => Op::Compares(Order::AtMost),
        7 => Op::Compares(Order::More),
        8 => Op::Compares(Order::AtLeast),
        9 => Op::Counts(Sum::Plus),
        10 => Op::Counts(Sum::Minus),
        11 => Op::Counts(Sum::Times),
        12 => Op::Counts(Sum::Over),
        13 => Op::Counts(Sum::Rest),
        _ => return None,
    })
}

// An integer type by its number.
#[tactic(auto, unfolding(crate::specs::Values::integer_of))]
pub fn integer_of(n: u64) -> Option<Integer>
    ensures { result ≡ integer_of n }
{
    Some(match n {
        1 => Integer::I8,
        2 => Integer::I16,
        3 => Integer::I32,
        4 => Integer::I64,
        5 => Integer::U8,
        6 => Integer::U16,
        7 => Integer::U32,
        8 => Integer::U64,
        _ => return None,
    })
}

#[tactic(auto, using(crate::proofs::Told::no_nan, crate::proofs::Told::nan), unfolding(crate::specs::Values::literal_value))]
pub fn literal(kind: u64, value: u64) -> Value
    ensures { result ≡ literal_value kind value }
{
    match kind {
        kind::INTEGER => Value::Whole(value),
        kind::FLOAT if INFINITY < value % SIGN => Value::Truth(false),
        kind::FLOAT => Value::Float(f64::from_bits(value)),
        _ => Value::Truth(value == 1),
    }
}

#[tactic(auto, unfolding(crate::specs::Values::single_of, crate::specs::Values::negated_of))]
pub fn single(kind: u64, ty: u64, a: Value) -> Value
    ensures { result ≡ single_of kind ty a }
{
    match a {
        Value::Whole(x) => match integer_of(ty) {
            Some(t) => Value::Whole(wholes::negated(t, x)),
            None => a,
        },
        Value::Float(x) => Value::Float(-x),
        Value::Truth(x) => Value::Truth(!x),
    }
}

// A quotient or a remainder as a value.
#[tactic(auto, unfolding(crate::specs::Values::part_of))]
pub fn part(p: Option<u64>) -> Option<Value>
    ensures { result ≡ part_of p }
{
    Some(Value::Whole(p?))
}

// None where the divisor is zero.
#[tactic(auto, unfolding(crate::specs::Values::whole_of))]
pub fn whole(o: Sum, t: Integer, a: u64, b: u64) -> Option<Value>
    ensures { result ≡ whole_of o t a b }
{
    match o {
        Sum::Plus => Some(Value::Whole(wholes::sum(t, a, b))),
        Sum::Minus => Some(Value::Whole(wholes::difference(t, a, b))),
        Sum::Times => Some(Value::Whole(wholes::product(t, a, b))),
        Sum::Over => part(wholes::quotient(t, a, b)),
        Sum::Rest => part(wholes::remainder(t, a, b)),
    }
}

#[tactic(auto, unfolding(crate::specs::Values::order_of))]
pub fn ordered(o: Order, a: u64, b: u64) -> bool
    ensures { result ≡ order_of o a b }
{
    match o {
        Order::Equal => a == b,
        Order::Unequal => a != b,
        Order::Less => wholes::less(a, b),
        Order::AtMost => !wholes::less(b, a),
        Order::More => wholes::less(b, a),
        Order::AtLeast => !wholes::less(a, b),
    }
}

#[tactic(auto, unfolding(crate::specs::Values::float_of))]
pub fn float(o: Sum, a: f64, b: f64) -> f64
    ensures { result ≡ float_of o a b }
{
    match o {
        Sum::Plus => a + b,
        Sum::Minus => a - b,
        Sum::Times => a * b,
        Sum::Over => a / b,
        Sum::Rest => remainders::remainder(a, b),
    }
}

#[tactic(auto, unfolding(crate::specs::Values::join_of))]
pub fn joined(o: Logic, a: bool, b: bool) -> bool
    ensures { result ≡ join_of o a b }
{
    match o {
        Logic::Or => a | b,
        Logic::And => a & b,
    }
}

// Two whole numbers; none where the divisor is zero.
#[tactic(auto, unfolding(crate::specs::Values::numbers_of, crate::specs::Values::wholes_of))]
pub fn numbers(o: Option<Op>, ty: u64, a: u64, b: u64) -> Option<Value>
    ensures { result ≡ numbers_of o (integer_of ty) a b }
{
    match (o, integer_of(ty)) {
        (Some(Op::Compares(q)), _) => Some(Value::Truth(ordered(q, a, b))),
        (Some(Op::Counts(q)), Some(t)) => whole(q, t, a, b),
        _ => Some(Value::Truth(false)),
    }
}

#[tactic(auto, unfolding(crate::specs::Values::floats_of))]
pub fn floats(o: Option<Op>, a: f64, b: f64) -> Value
    ensures { result ≡ floats_of o a b }
{
    match o {
        Some(Op::Counts(q)) => Value::Float(float(q, a, b)),
        _ => Value::Truth(false),
    }
}

#[tactic(auto, unfolding(crate::specs::Values::truths_of))]
pub fn truths(o: Option<Op>, a: bool, b: bool) -> Value
    ensures { result ≡ truths_of o a b }
{
    match o {
        Some(Op::Joins(q)) => Value::Truth(joined(q, a, b)),
        _ => Value::Truth(false),
    }
}

// None where the divisor is zero; two values of two kinds are never met in a checked tree.
#[tactic(auto, unfolding(crate::specs::Values::double_of))]
pub fn double(ty: u64, what: u64, a: Value, b: Value) -> Option<Value>
    ensures { result ≡ double_of ty what a b }
{
    let o = op_of(what);
    match (a, b) {
        (Value::Whole(x), Value::Whole(y)) => numbers(o, ty, x, y),
        (Value::Float(x), Value::Float(y)) => Some(floats(o, x, y)),
        (Value::Truth(x), Value::Truth(y)) => Some(truths(o, x, y)),
        _ => Some(a),
    }
}

// A whole number of a type with its sign drawn out to 64 bits; where the number names no integer type, as it is.
#[tactic(auto, unfolding(crate::specs::Values::extended_of))]
fn whole_bits(ty: u64, a: u64) -> u64
    ensures { result ≡ extended_of (integer_of ty) a }
{
    match integer_of(ty) {
        Some(t) => wholes::extended(t, a),
        None => a,
    }
}

// The bits of a float, one pattern for every NaN.
#[tactic(auto, unfolding(crate::specs::Values::float_bits))]
fn float_bits(x: f64) -> u64
    ensures { result ≡ float_bits x }
{
    if x.is_nan() { NAN } else { x.to_bits() }
}

// A value of a type as 64 bits: a whole number with its sign drawn out, a float's own, 1 for `true`.
#[tactic(auto, unfolding(crate::specs::Values::bits_of))]
pub fn bits_of(ty: u64, v: Value) -> u64
    ensures { result ≡ bits_of ty v }
{
    match v {
        Value::Whole(a) => whole_bits(ty, a),
        Value::Float(x) => float_bits(x),
        Value::Truth(b) => u64::from(b),
    }
}

// kept: a stack of our own, since the kit's ArrayVec would be the first crate that the library stands on.
// The values on the stack.
#[derive(Drop)]
struct Stack<'a> {
    values: &'a mut [Value; MOST],
    depth: usize,
}

// Seen as a list, its top first.
impl<'a> Model for Stack<'a> {
    ghost use Rattle.std.specs.Prelude.{ℕ, List, ◌≡◌, ◌≤◌, length, reverse, take};
    ghost use Rattle.machine.specs.declared.Value as value;

    ghost Value = { List value.Value };

    ghost view = { λ s. reverse (take s.depth s.values.now) };

    ghost invariant = { λ s. (length s.values.now ≡ 1024) × (s.depth ≤ 1024) };
}

impl<'a> Stack<'a> {
    fn push(&mut self, v: Value)
        requires { length self.old < 1024 }
        ensures { self.new ≡ v ∷ self.old }
    {
        self.values[self.depth] = v;
        self.depth += 1;
    }

    fn pop(&mut self) -> Option<Value>
        ensures some { IfSome result (λ v. self.old ≡ v ∷ self.new) }
        ensures none { IfNone result (self.old ≡ []) }
    {
        if self.depth == 0 {
            return None;
        }
        self.depth -= 1;
        Some(self.values[self.depth])
    }

    // A literal, whose kind is below an operator's, is put on the stack; an operator takes two values, a sign one.
    #[tactic(auto, unfolding(crate::specs::Machine::step_of, crate::specs::Machine::double_on, crate::specs::Machine::single_on, crate::specs::Machine::topped))]
    fn step(&mut self, x: Instruction) -> Result<(), Stop>
        requires { length self.old < 1024 }
        ensures ok { OnOk result (step_of x self.old ≡ Ok self.new) }
        ensures err { IfErr result (λ e. step_of x self.old ≡ Err e) }
    {
        if x.kind < kind::BINARY {
            self.push(literal(x.kind, x.value));
            return Ok(());
        }
        let top = self.pop().ok_or(Stop::Broken)?;
        if x.kind == kind::BINARY {
            let below = self.pop().ok_or(Stop::Broken)?;
            let v = double(x.ty, x.value, below, top).ok_or(Stop::ZeroDivisor(x.start, x.end))?;
            self.push(v);
        } else {
            self.push(single(x.kind, x.ty, top));
        }
        Ok(())
    }

    // The value that is left, alone.
    #[tactic(auto, unfolding(crate::specs::Machine::ended))]
    fn end(&mut self) -> Result<Value, Stop>
        ensures { result ≡ ended self.old }
    {
        let v = self.pop().ok_or(Stop::Broken)?;
        match self.pop() {
            Some(_) => Err(Stop::Broken),
            None => Ok(v),
        }
    }
}

// An instruction of the list.
fn read(list: &[u64], i: usize) -> Instruction
    requires { i * wide + wide ≤ length list.now }
    ensures { result ≡ instr_at list.now i }
{
    let at = i * WIDTH;
    Instruction {
        kind: list[at],
        ty: list[at + 1],
        value: list[at + 2],
        start: list[at + 3],
        end: list[at + 4],
    }
}

// Runs the first n instructions of the list.
#[tactic(auto, using(crate::proofs::Running::goes), unfolding(crate::specs::Machine::ran_of))]
pub fn run(list: &[u64], n: usize) -> Result<Value, Stop>
    ensures { result ≡ ran_of list.now n }
{
    if (MOST < n) | (list.len() / WIDTH < n) {
        return Err(Stop::Broken);
    }
    // Lent to the stack: moved into it, all of them would be copied, for which the library for C would need memcpy.
    let mut values = [Value::Truth(false); MOST];
    let mut stack = Stack {
        values: &mut values,
        depth: 0,
    };
    for i in 0..n {
        stack.step(read(list, i))?;
    }
    stack.end()
}
