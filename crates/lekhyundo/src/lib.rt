// The functions that C and Rust link: each answers in a lent run of numbers, as far as that reaches.
#![tactic(auto)]

ghost use Rattle.std.specs.Prelude.{Some, None, Ok, Err, ◌≡◌, true, false, set, length};
ghost use Rattle.std.proofs.lemmas.List.Edits.{sets};
ghost use Rattle.tokens.specs.declared.Refusal.{Refusal};
ghost use Rattle.tokens.specs.Tokens.{step_at, step_numbers, answer_of};
ghost use Rattle.list.specs.Filled.{filled};
ghost use Rattle.strings.specs.Strings.{answer_of as decode_answer, content_of};
ghost use Rattle.entry.specs.Entries.{name_text};
ghost use Rattle.values.specs.Literals.{literal_at, literal_numbers};
ghost use Rattle.lekhyundo.specs.Numbers.{answer_numbers};
ghost use Rattle.lekhyundo.specs.Entered.{Entered};
ghost use Rattle.lekhyundo.specs.Floated.{Floated};
ghost use Rattle.lekhyundo.specs.Searched.{Searched};
ghost use Rattle.lekhyundo.specs.Evaluated.{Evaluated};
ghost use Rattle.lekhyundo.specs.Tabled.{TableChecked, TableWritten};
ghost use Rattle.lekhyundo.specs.Salvaged.{Salvaged};
ghost use Rattle.lekhyundo.specs.Printed.{Printed};

use chars::{Answer, refusal};
use messages::Page;
use reader::entries;
use tokens::{Cursor, Step, Token};
use values::Literal;

// Numbers, as many as the run has room for.
fn put(out: &mut [u64], numbers: &[u64])
    ensures { out.new ≡ sets out.old 0 numbers.now }
{
    // kept: store by store, as `sets` says it; `copy_from_slice` of the shorter is no plainer.
    for (i, n) in numbers.iter().enumerate() {
        if i < out.len() {
            out[i] = *n;
        }
    }
}

#[tactic(auto, unfolding(crate::specs::Numbers::answer_numbers))]
fn numbers(a: Answer) -> [u64; 4]
    ensures { result ≡ answer_numbers a }
{
    [a.number, a.start as u64, a.end as u64, a.count as u64]
}

fn put_answer(out: &mut [u64], a: Answer)
    ensures { out.new ≡ sets out.old 0 (answer_numbers a) }
{
    put(out, &numbers(a));
}

// (c) to a source with room for so many tokens: number, start, end, count.
#[unsafe(no_mangle)]
pub extern "C" fn lekhyundo_tokens(s: &[u8], room: usize, out: &mut [u64])
    ensures { out.new ≡ sets out.old 0 (answer_numbers (answer_of s.now room)) }
{
    put_answer(out, tokens::count_tokens(s, room));
}

// (c) to a source, its tokens in a lent list: number, start, end, count.
#[unsafe(no_mangle)]
pub extern "C" fn lekhyundo_token_list(s: &[u8], tokens: &mut [Token], out: &mut [u64])
    ensures { (tokens.new ≡ filled s.now (length tokens.old)) × (out.new ≡ sets out.old 0 (answer_numbers (answer_of s.now (length tokens.old)))) }
{
    let a = list::tokens(s, tokens);
    put_answer(out, a);
}

// A step that hands back no token: number, start, end, 0, 0.
#[tactic(auto, unfolding(tokens::specs::Tokens::step_numbers))]
fn put_refusal(out: &mut [u64], step: Step)
    ensures { (why : Refusal) → step ≡ Err why → out.new ≡ sets out.old 0 (step_numbers step) }
{
    let Err(why) = step else {
        return;
    };
    put(out, &[why.number, why.start as u64, why.end as u64, 0, 0]);
}

// The token at a place: 0, start, end, code, word; or a refusal: number, start, end, 0, 0.
#[unsafe(no_mangle)]
#[tactic(auto, unfolding(tokens::specs::Tokens::step_numbers))]
pub extern "C" fn lekhyundo_step(s: &[u8], at: usize, out: &mut [u64])
    ensures { out.new ≡ sets out.old 0 (step_numbers (step_at s.now at)) }
{
    let cursor = Cursor { at };
    let step = cursor.step(s);
    let Ok((word, start, next)) = step else {
        put_refusal(out, step);
        return;
    };
    let code = tokens::code_of(word);
    put(out, &[0, start as u64, next.at as u64, code, word]);
}

// (e): a string token decoded into the lent bytes; number, start, end, count.
#[unsafe(no_mangle)]
pub extern "C" fn lekhyundo_decode(s: &[u8], out: &mut [u8], answer: &mut [u64])
    ensures answer_after { answer.new ≡ sets answer.old 0 (answer_numbers (decode_answer s.now (length out.old))) }
    ensures out_after { out.new ≡ content_of s.now (length out.old) }
{
    let a = strings::decode(s, out);
    put_answer(answer, a);
}

// The value of the token of a code between two places: 0, kind, value, detail; or 7 and zeros for a literal without a value.
#[unsafe(no_mangle)]
#[tactic(auto, unfolding(values::specs::Literals::literal_numbers))]
pub extern "C" fn lekhyundo_literal(s: &[u8], code: u64, start: usize, end: usize, out: &mut [u64])
    ensures { out.new ≡ sets out.old 0 (literal_numbers (literal_at code start end s.now)) }
{
    match values::literal_at(s, code, start, end) {
        Some(
            Literal {
                kind,
                value,
                detail,
            },
        ) => put(out, &[refusal::NONE, kind, value, detail]),
        None => put(out, &[refusal::VALUELESS, 0, 0, 0]),
    }
}

// (a): a source to its tree, rows of seven numbers in the lent table; number, start, end, count.
#[unsafe(no_mangle)]
pub extern "C" fn lekhyundo_tree(s: &[u8], table: &mut [u64], answer: &mut [u64])
    ensures { Entered true s.now (length table.old) table.new answer.old answer.new }
{
    let a = entries::tree(s, table);
    put_answer(answer, a);
}

// (b): a source to one expression, likewise.
#[unsafe(no_mangle)]
pub extern "C" fn lekhyundo_expression(s: &[u8], table: &mut [u64], answer: &mut [u64])
    ensures { Entered false s.now (length table.old) table.new answer.old answer.new }
{
    let a = entries::expression(s, table);
    put_answer(answer, a);
}

// (d): how long the text of a name row is; it starts where the row does.
#[unsafe(no_mangle)]
pub extern "C" fn lekhyundo_name(s: &[u8], kind: u64, start: usize, end: usize) -> usize
    ensures { result ≡ length (name_text s.now kind start end) }
{
    let text = entry::name_text(s, kind, start, end);
    text.len()
}

// C-17: the number of one float literal; number, start, end, width, bits.
#[unsafe(no_mangle)]
#[tactic(auto, unfolding(crate::specs::Numbers::float_numbers))]
pub extern "C" fn lekhyundo_float(t: &[u8], answer: &mut [u64])
    ensures { Floated t.now answer.old answer.new }
{
    let a = literals::float(t);
    put(
        answer,
        &[a.number, a.start as u64, a.end as u64, a.width, a.bits],
    );
}

// C-15: the last leaf of a table whose span holds a byte; number, its span, its index from 0.
#[unsafe(no_mangle)]
pub extern "C" fn lekhyundo_at(table: &[u64], position: u64, answer: &mut [u64])
    ensures { Searched table.now position answer.old answer.new }
{
    let a = nodes::node_at(table, position);
    put_answer(answer, a);
}

// C-18: the value of the constant with a number, from 0, its rows and its instructions in lent tables; number, start, end, count, type, bits.
#[unsafe(no_mangle)]
#[tactic(auto, unfolding(crate::specs::Numbers::constant_numbers, crate::specs::Numbers::answer_numbers))]
pub extern "C" fn lekhyundo_constant(
    s: &[u8],
    number: u64,
    table: &mut [u64],
    list: &mut [u64],
    answer: &mut [u64],
)
    ensures { Evaluated s.now number (length table.old) (length list.old) table.new list.new answer.old answer.new }
{
    let c = constants::evaluate(s, number, table, list);
    let [refusal, start, end, count] = numbers(constants::answer(c, s.len()));
    let kind = constants::declared_type(c);
    let bits = constants::bits(c);
    put(answer, &[refusal, start, end, count, kind, bits]);
}

// C-21: whether a file's rows and indexes are those of its source, its rows in the lent table; number, start, end, rows, tests.
#[unsafe(no_mangle)]
#[tactic(auto, unfolding(crate::specs::Numbers::checked_numbers))]
pub extern "C" fn lekhyundo_table_check(file: &[u8], table: &mut [u64], answer: &mut [u64])
    ensures { TableChecked file.now (length table.old) table.new answer.old answer.new }
{
    let a = sheets::check(file, table);
    put(
        answer,
        &[
            a.number,
            a.start as u64,
            a.end as u64,
            a.count as u64,
            a.tests as u64,
        ],
    );
}

// C-21: the file of a source in lent bytes, its rows in the lent table; number, start, end, count.
#[unsafe(no_mangle)]
pub extern "C" fn lekhyundo_table_write(
    s: &[u8],
    table: &mut [u64],
    file: &mut [u8],
    answer: &mut [u64],
)
    ensures { TableWritten s.now (length table.old) (length file.old) table.new file.new answer.old answer.new }
{
    let a = sheets::write(s, table, file);
    put_answer(answer, a);
}

// C-23: a broken source salvaged: spaces for what is dropped, the rows and the dropped ranges in lent tables; number, start, end, count, ranges.
#[unsafe(no_mangle)]
#[tactic(auto, unfolding(crate::specs::Numbers::salvaged_numbers))]
pub extern "C" fn lekhyundo_salvage(
    s: &mut [u8],
    table: &mut [u64],
    ranges: &mut [u64],
    answer: &mut [u64],
)
    ensures { Salvaged s.old (length table.old) (length ranges.old) s.new table.new ranges.new answer.old answer.new }
{
    let a = salvage::salvage(s, table, ranges);
    put(
        answer,
        &[
            a.number,
            a.start as u64,
            a.end as u64,
            a.count as u64,
            a.ranges as u64,
        ],
    );
}

// C-20: the print of a source in a lent text, with lent tables for its rows and for what waits to be written; number, start, end, count, tests.
#[unsafe(no_mangle)]
#[tactic(auto, unfolding(crate::specs::Numbers::printed_numbers))]
pub extern "C" fn lekhyundo_print(
    s: &[u8],
    table: &mut [u64],
    plan: &mut [u64],
    text: &mut [u8],
    answer: &mut [u64],
)
    ensures { Printed s.now (length table.old) (length plan.old) (length text.old) table.new plan.new text.new answer.old answer.new }
{
    let a = setter::entries::print_tree(s, table, plan, text);
    put(
        answer,
        &[
            a.number,
            a.start as u64,
            a.end as u64,
            a.count as u64,
            a.tests as u64,
        ],
    );
}

// A refusal of (a) to a named source as lines of text: place and message, the line, carets, what could stand there; how many bytes. The room is
// for the source up to the place and a word more. It promises nothing but to be safe and to end.
#[unsafe(no_mangle)]
pub extern "C" fn lekhyundo_report(
    name: &[u8],
    s: &[u8],
    number: u64,
    start: usize,
    end: usize,
    needed: usize,
    room: &mut [u8],
    out: &mut [u8],
) -> usize {
    let a = Answer {
        number,
        start,
        end,
        count: needed,
    };
    let mut page = Page::new(out);
    messages::report(&mut page, name, s, a, room);
    page.written().len()
}
