// Rows and tokens by the names of their kinds; rows as a tree, each under its parent.
use super::one_line;
use super::table_rows::{DETAIL, END, KIND, SIZE, START, TableRow, cell, row_text, rows_before};
use programs::Out;
use rows::kind;

// Two columns whose numbers aren't shown take others: how deep a row is, and the next row of a chain, from a row down to its first leaf. A leaf
// has the top of the chain that ends in it.
const DEPTH: usize = 3;

const LINK: usize = 4;

// The names of kinds.
const KINDS: [(u64, &str); 44] = [
    (kind::NAME, "name"),
    (kind::PATH, "path"),
    (kind::NEVER, "never type"),
    (kind::UNIT, "unit type"),
    (kind::OPTION, "optional type"),
    (kind::PATH_TYPE, "path type"),
    (kind::RECORD_TYPE, "record type"),
    (kind::TYPED_NAME, "name with type"),
    (kind::INTEGER, "integer"),
    (kind::FLOAT, "float"),
    (kind::BOOL, "bool"),
    (kind::ASN, "AS number"),
    (kind::IPV4, "IPv4"),
    (kind::IPV6, "IPv6"),
    (kind::STRING, "string"),
    (kind::CHAR, "char"),
    (kind::BINARY, "binary"),
    (kind::NOT, "not"),
    (kind::NEGATE, "negate"),
    (kind::CALL, "call"),
    (kind::ACCESS, "access"),
    (kind::QUESTION, "question"),
    (kind::ASSIGN, "assign"),
    (kind::RETURN, "return form"),
    (kind::IF, "if"),
    (kind::WHILE, "while"),
    (kind::FOR, "for"),
    (kind::MATCH, "match"),
    (kind::ARM, "arm"),
    (kind::ANY, "any"),
    (kind::VARIANT, "variant"),
    (kind::BLOCK, "block"),
    (kind::RECORD, "record"),
    (kind::FIELD, "field"),
    (kind::LET, "let"),
    (kind::IMPORT, "import"),
    (kind::CONST, "const"),
    (kind::FN, "fn"),
    (kind::TEST, "test"),
    (kind::TREE, "tree"),
    (kind::IMPORT_PATH, "import path"),
    (kind::FILTER, "filter"),
    (kind::F_STRING, "f-string"),
    (kind::TEXT, "text"),
];

// What the details of rows that aren't leaves say, by their number: the sign of a binary row, that of an assignment, the word of a return form,
// and what `filter`, the name of its kind, lacks.
const OPERATORS: [&str; 14] = [
    "", " ||", " &&", " ==", " !=", " <", " <=", " >", " >=", " +", " -", " *", " /", " %",
];

const ASSIGNMENTS: [&str; 6] = [" =", " +=", " -=", " *=", " /=", " %="];

const RETURNS: [&str; 4] = ["", " return", " accept", " reject"];

const FILTERS: [&str; 3] = ["", "", "map"];

// The names of tokens' codes.
const CODES: [&str; 13] = [
    "name",
    "IPv6",
    "IPv4",
    "two signs",
    "sign",
    "AS number",
    "hex",
    "integer",
    "float",
    "string",
    "char",
    "keyword",
    "bool",
];

fn kind_name(k: u64) -> &'static str {
    KINDS
        .iter()
        .find(|(kind, _)| *kind == k)
        .map_or("row", |(_, name)| *name)
}

// The name with a number in a list.
fn listed(names: &[&'static str], n: u64) -> Option<&'static str> {
    names.get(n as usize).copied()
}

fn detail_name(k: u64, detail: u64) -> &'static str {
    let name = match k {
        kind::FILTER => listed(&FILTERS, detail),
        kind::BINARY => listed(&OPERATORS, detail),
        kind::ASSIGN => listed(&ASSIGNMENTS, detail),
        kind::RETURN => listed(&RETURNS, detail),
        _ => None,
    };
    name.unwrap_or("")
}

// The code of a token.
pub fn code_name(code: u64) -> &'static str {
    listed(&CODES, code).unwrap_or("name")
}

fn set(all: &mut [TableRow], row: usize, column: usize, value: u64) {
    if let Some(numbers) = all.get_mut(row) {
        if let Some(number) = numbers.get_mut(column) {
            *number = value;
        }
    }
}

fn is_leaf(all: &[TableRow], row: usize) -> bool {
    cell(all, row, SIZE) <= 1
}

// Puts a row on top of the chain that ends in the first leaf of its subtree.
fn link(all: &mut [TableRow], row: usize) {
    if is_leaf(all, row) {
        set(all, row, LINK, row as u64);
        return;
    }
    let size = cell(all, row, SIZE);
    let first = rows_before(row, size.saturating_sub(1));
    let inner = cell(all, first, LINK);
    set(all, row, LINK, inner);
    set(all, first, LINK, row as u64);
}

// A row's kind and span, and the text of a leaf.
fn line(to: &mut Out, s: &[u8], all: &[TableRow], row: usize, depth: u64) {
    for _ in 0..depth {
        to.print("  ");
    }
    let k = cell(all, row, KIND);
    let detail = detail_name(k, cell(all, row, DETAIL));
    let start = cell(all, row, START);
    let end = cell(all, row, END);
    to.print(format_args!("{}{detail} {start} {end}", kind_name(k)));
    if is_leaf(all, row) {
        to.print(" ");
        one_line(to, row_text(s, all, row));
    }
    to.print("\n");
}

// How deep the top of a leaf's chain is: as deep as the row before the leaf, which ends where it begins.
fn depth_of(all: &[TableRow], leaf: usize) -> u64 {
    match leaf.checked_sub(1) {
        Some(before) => cell(all, before, DEPTH),
        None => 0,
    }
}

// The rows of a leaf's chain, from its top down; nothing for another row.
// kept: no plainer over an iterator of the chain, since each row's depth is written into the table that its link is read from.
fn chain(to: &mut Out, s: &[u8], all: &mut [TableRow], leaf: usize) {
    if !is_leaf(all, leaf) {
        return;
    }
    let mut depth = depth_of(all, leaf);
    let mut row = cell(all, leaf, LINK) as usize;
    while leaf <= row {
        set(all, row, DEPTH, depth);
        line(to, s, all, row, depth);
        let next = cell(all, row, LINK) as usize;
        if (row == leaf) | (row <= next) {
            return;
        }
        row = next;
        depth = depth.saturating_add(1);
    }
}

// The rows as a tree: parents first.
pub fn tree_lines(to: &mut Out, s: &[u8], table: &mut [u64], count: usize) {
    let (all, _) = table.as_chunks_mut::<{ rows::WIDTH }>();
    for row in 0..count {
        link(all, row);
    }
    for row in 0..count {
        chain(to, s, all, row);
    }
}
