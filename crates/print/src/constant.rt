// Constants as lines of text: the answer to one, and all of a source.
use super::table_rows::{KIND, SIZE, TableRow, cell, row_text, rows_before};
use super::{head, one_line};
use chars::{Answer, refusal};
use constants::Constant;
use machine::Value;
use programs::Out;
use reader::entries;
use rows::kind;
use std::fmt;

// A whole number of a type, with its sign.
#[derive(Clone, Copy)]
struct Whole {
    ty: u64,
    bits: u64,
}

impl fmt::Display for Whole {
    fn fmt<W: fmt::Write>(&self, f: &mut fmt::Formatter<W>) -> fmt::Result {
        let Some(t) = machine::integer_of(self.ty) else {
            return Ok(());
        };
        if wholes::negative(t, self.bits) {
            f.write_str("-")?;
        }
        let magnitude = wholes::magnitude(t, self.bits);
        write!(f, "{magnitude}")
    }
}

// A constant's value behind the word for its kind; a float by its bits, a truth value as 0 or 1.
fn value_line(to: &mut Out, ty: u64, v: Value) {
    let bits = machine::bits_of(ty, v);
    match v {
        Value::Whole(bits) => to.print(format_args!("accepted integer {}\n", Whole { ty, bits })),
        Value::Float(_) if bits == machine::NAN => to.print("accepted float nan\n"),
        Value::Float(_) => to.print(format_args!("accepted float {bits}\n")),
        Value::Truth(_) => to.print(format_args!("accepted bool {bits}\n")),
    }
}

// C-18: the value of a source's constant with a number, or the refusal.
pub fn answer(to: &mut Out, s: &[u8], number: u64, table: &mut [u64], list: &mut [u64]) {
    let c = constants::evaluate(s, number, table, list);
    match c {
        Ok(f) => value_line(to, f.ty, f.value),
        Err(a) => head(to, a),
    }
}

// The name and the type of a constant: its expression's rows stand before its own, and before those the type's, before those the name's.
fn name_and_type(to: &mut Out, s: &[u8], all: &[TableRow], row: usize) {
    let expr = rows_before(row, 1);
    let ty = rows_before(expr, cell(all, expr, SIZE));
    let name = rows_before(ty, cell(all, ty, SIZE));
    one_line(to, row_text(s, all, name));
    to.print(" ");
    one_line(to, row_text(s, all, ty));
    to.print(" ");
}

// No source has as many bytes.
const MOST_BYTES: u64 = 65536;

const NEWLINE: u8 = b'\n';

// `refused NUMBER at line LINE, column COLUMN`, both from 1.
fn refusal_line(to: &mut Out, s: &[u8], a: Answer) {
    let before = s.get(..a.start).unwrap_or(s);
    let lines = before.iter().filter(|b| **b == NEWLINE).count();
    let columns = before.iter().rev().take_while(|b| **b != NEWLINE).count();
    to.print(format_args!(
        "refused {} at line {}, column {}\n",
        a.number,
        lines.saturating_add(1),
        columns.saturating_add(1)
    ));
}

// The bits of an f64: its sign's, the exponent's field, and 13 hex digits below.
const SIGN: u64 = 1 << 63;

const UNIT: u64 = 1 << 52;

const INFINITE: u64 = 2047;

const BIAS: i64 = 1023;

// A float exactly: hex digits and a power of two, as C's strtod reads them.
#[derive(Clone, Copy)]
struct Exact(u64);

impl fmt::Display for Exact {
    fn fmt<W: fmt::Write>(&self, f: &mut fmt::Formatter<W>) -> fmt::Result {
        if self.0 == machine::NAN {
            return f.write_str("nan");
        }
        if SIGN <= self.0 {
            f.write_str("-")?;
        }
        let amount = Amount(self.0 % SIGN);
        write!(f, "{amount}")
    }
}

// The float without its sign. Where the field is 0, the power of two is one more than it says.
#[derive(Clone, Copy)]
struct Amount(u64);

impl fmt::Display for Amount {
    fn fmt<W: fmt::Write>(&self, f: &mut fmt::Formatter<W>) -> fmt::Result {
        let field = self.0 / UNIT;
        let digits = self.0 % UNIT;
        if self.0 == 0 {
            return f.write_str("0");
        }
        if INFINITE <= field {
            return f.write_str("inf");
        }
        if field == 0 {
            return write!(f, "0x0.{digits:013x}p-1022");
        }
        let power = field as i64 - BIAS;
        write!(f, "0x1.{digits:013x}p{power}")
    }
}

// A constant's value as a filter would have it, but for a float.
fn value_text(to: &mut Out, ty: u64, v: Value) {
    match v {
        Value::Whole(bits) => to.print(format_args!("{}\n", Whole { ty, bits })),
        Value::Float(_) => to.print(format_args!("{}\n", Exact(machine::bits_of(ty, v)))),
        Value::Truth(b) => to.print(format_args!("{b}\n")),
    }
}

// The rest of a constant's line: its value or its refusal. Whether it has a value.
fn constant_line(to: &mut Out, s: &[u8], c: Constant) -> bool {
    match c {
        Ok(f) => {
            value_text(to, f.ty, f.value);
            true
        }
        Err(a) => {
            refusal_line(to, s, a);
            false
        }
    }
}

// The row of the constant with a number, from 0.
fn constant_row(all: &[TableRow], number: usize) -> Option<usize> {
    all.iter()
        .enumerate()
        .filter(|(_, row)| row[KIND] == kind::CONST)
        .nth(number)
        .map(|(row, _)| row)
}

// Reads a source, and begins the line of the constant with a number, where there is one; or the source's refusal.
fn named_constant(
    to: &mut Out,
    s: &[u8],
    number: u64,
    table: &mut [u64],
) -> Result<Option<()>, Answer> {
    let a = entries::tree(s, table);
    if a.number != refusal::NONE {
        return Err(a);
    }
    let (all, _) = table.as_chunks::<{ rows::WIDTH }>();
    let read = all.get(..a.count).unwrap_or(all);
    let row = constant_row(read, number as usize);
    Ok(row.map(|row| name_and_type(to, s, read, row)))
}

// C-18: a line for each constant of a source, its name, its type and its value or refusal; or the source's refusal. Whether nothing was refused.
pub fn answer_all(to: &mut Out, s: &[u8], table: &mut [u64], list: &mut [u64]) -> bool {
    let mut fine = true;
    for number in 0..MOST_BYTES {
        match named_constant(to, s, number, table) {
            Ok(Some(())) => {}
            Ok(None) => return fine,
            Err(a) => {
                refusal_line(to, s, a);
                return false;
            }
        }
        let c = constants::evaluate(s, number, table, list);
        fine &= constant_line(to, s, c);
    }
    fine
}
