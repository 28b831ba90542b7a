// How each kind of row is written, child by child: the words before a child, its place, and the words behind the last. A phase says how far it is.
#![tactic(auto)]

ghost use Rattle.std.specs.Prelude.{◌≡◌, [], ◌∷◌, ◌++◌, false, cond, ◌&&◌, not, ℕ, ◌<◌, ◌+◌, pred, eqb};
ghost use Rattle.rows.specs.Kinds as kinds;
ghost use Rattle.grammar.specs.Words.{comma, binary_signs, assign_signs, return_words, filter_words};
ghost use Rattle.canon.specs.Layout as canon;
ghost use Rattle.canon.specs.Text.{signs};
ghost use Rattle.canon.specs.Events.{closing};
ghost use Rattle.sink.specs.Told.{said};
ghost use Rattle.places.specs.Meant.{meant, unless_in};
ghost use Rattle.places.specs.Under.{under};
ghost use Rattle.layouts.specs.Phases.{before_type, before_operand, before_part, before_headed, before_imported, before_item, before, behind_part, behind_statement, behind_param, next, end_of_type, end_of_operand, end_of_part, end_of_item, behind};
ghost use Rattle.layouts.specs.Packed.{packed, past_three, place_in};

use places::under::place_under;
use places::{Mark, Place, Unless, is_four};
use rows::kind;
use sink::{DIGIT, WORDS};
use tokens::word;

// An f-string's row ends before its quote, which is copied with it.
pub fn quote(k: u64) -> usize
    ensures { result ≡ cond (eqb k kinds.F_STRING) 1 0 }
{
    if k == kind::F_STRING { 1 } else { 0 }
}

// The phases: so many children behind, up to 3; in an arm, a block, a function and an import path, what the last one was.
// kept: one enum of phases is no plainer, since most of its names would mean nothing for most kinds of rows.

const LATER: u64 = 3;

const BEHIND_NAME: u64 = 1;

const PARAMED: u64 = 2;

const BEHIND_PARAMS: u64 = 3;

const BEHIND_BOUND: u64 = 1;

const BEHIND_FOUR: u64 = 2;

const BEHIND_EXPR: u64 = 3;

const BEHIND_BLOCK: u64 = 3;

const BEHIND_BODY: u64 = 4;

const GROUPED: u64 = 2;

// Words, by their numbers.
type Words = &'static [u64];

// The signs by their details.

fn binary_sign(detail: u64) -> Words
    ensures { result.now ≡ canon.nth binary_signs (pred detail) ∷ [] }
{
    match detail {
        0 | 1 => &[word::PIPE_PIPE],
        2 => &[word::AMP_AMP],
        3 => &[word::EQ_EQ],
        4 => &[word::BANG_EQ],
        5 => &[word::ANGLE_LEFT],
        6 => &[word::ANGLE_LEFT_EQ],
        7 => &[word::ANGLE_RIGHT],
        8 => &[word::ANGLE_RIGHT_EQ],
        9 => &[word::PLUS],
        10 => &[word::HYPHEN],
        11 => &[word::STAR],
        12 => &[word::SLASH],
        13 => &[word::PERCENT],
        _ => &[word::NONE],
    }
}

fn assign_sign(detail: u64) -> Words
    ensures { result.now ≡ canon.nth assign_signs detail ∷ [] }
{
    match detail {
        0 => &[word::EQ],
        1 => &[word::PLUS_EQ],
        2 => &[word::MINUS_EQ],
        3 => &[word::STAR_EQ],
        4 => &[word::SLASH_EQ],
        5 => &[word::PERCENT_EQ],
        _ => &[word::NONE],
    }
}

fn return_word(detail: u64) -> Words
    ensures { result.now ≡ canon.nth return_words (pred detail) ∷ [] }
{
    match detail {
        0 | 1 => &[word::RETURN],
        2 => &[word::ACCEPT],
        3 => &[word::REJECT],
        _ => &[word::NONE],
    }
}

fn filter_word(detail: u64) -> Words
    ensures { result.now ≡ canon.nth filter_words (pred detail) ∷ [] }
{
    match detail {
        0 | 1 => &[word::FILTER],
        2 => &[word::FILTERMAP],
        _ => &[word::NONE],
    }
}

// The words before the next child, by the kind of the row and its phase.

#[tactic(auto, unfolding(crate::specs::Phases::before_type))]
fn before_type(k: u64, value: u64, phase: u64) -> Words
    ensures { result.now ≡ before_type k value phase }
{
    match (k, phase) {
        (kind::PATH, 1..) => &[word::PERIOD],
        (kind::PATH_TYPE, 1) if value != 0 => &[word::SQUARE_LEFT],
        (kind::PATH_TYPE, 2..) if value != 0 => &[word::COMMA],
        (kind::RECORD_TYPE, 0) => &[word::CURLY_LEFT],
        (kind::RECORD_TYPE, 1..) => &[word::COMMA],
        (kind::TYPED_NAME, 1) => &[word::COLON],
        _ => &[],
    }
}

#[tactic(auto, unfolding(crate::specs::Phases::before_operand))]
fn before_operand(k: u64, detail: u64, phase: u64) -> Words
    ensures { result.now ≡ before_operand k detail phase }
{
    match (k, phase) {
        (kind::BINARY, 1) => binary_sign(detail),
        (kind::NOT, 0) => &[word::BANG],
        (kind::NEGATE, 0) => &[word::HYPHEN],
        (kind::CALL, 1) => &[word::ROUND_LEFT],
        (kind::CALL, 2..) => &[word::COMMA],
        (kind::ACCESS, 1) => &[word::PERIOD],
        (kind::ASSIGN, 1) => assign_sign(detail),
        (kind::RETURN, 0) => return_word(detail),
        _ => &[],
    }
}

#[tactic(auto, unfolding(crate::specs::Phases::before_part))]
fn before_arm_part(value: u64, phase: u64) -> Words
    ensures { result.now ≡ before_part kinds.ARM value phase }
{
    match (value, phase) {
        (0, 1) => &[word::FAT_ARROW],
        (1.., 1) => &[word::IF],
        (1.., 2) => &[word::FAT_ARROW],
        _ => &[],
    }
}

#[tactic(auto, unfolding(crate::specs::Phases::before_part))]
fn before_field(value: u64, phase: u64) -> Words
    ensures { result.now ≡ before_part kinds.RECORD value phase }
{
    match (value, phase) {
        (0, 0) => &[word::CURLY_LEFT],
        (0, _) => &[word::COMMA],
        (_, 0) => &[],
        (_, 1) => &[word::CURLY_LEFT],
        _ => &[word::COMMA],
    }
}

#[tactic(auto, unfolding(crate::specs::Phases::before_part))]
fn before_pattern(value: u64, phase: u64) -> Words
    ensures { result.now ≡ before_part kinds.VARIANT value phase }
{
    match (value, phase) {
        (0, _) | (_, 0) => &[],
        (_, 1) => &[word::ROUND_LEFT],
        _ => &[word::COMMA],
    }
}

#[tactic(auto, unfolding(crate::specs::Phases::before_part))]
fn before_part(k: u64, value: u64, phase: u64) -> Words
    ensures { result.now ≡ before_part k value phase }
{
    match (k, phase) {
        (kind::IF, 0) => &[word::IF],
        (kind::IF, 2) => &[word::ELSE],
        (kind::WHILE, 0) => &[word::WHILE],
        (kind::FOR, 0) => &[word::FOR],
        (kind::FOR, 1) => &[word::IN],
        (kind::MATCH, 0) => &[word::MATCH],
        (kind::MATCH, 1) => &[word::CURLY_LEFT],
        (kind::ARM, _) => before_arm_part(value, phase),
        (kind::VARIANT, _) => before_pattern(value, phase),
        (kind::BLOCK, 0) => &[word::CURLY_LEFT],
        (kind::BLOCK, BEHIND_EXPR..) => &[word::SEMI_COLON],
        (kind::RECORD, _) => before_field(value, phase),
        (kind::FIELD, 1) => &[word::COLON],
        _ => &[],
    }
}

#[tactic(auto, unfolding(crate::specs::Phases::before_item))]
fn before_bound(value: u64, phase: u64) -> Words
    ensures { result.now ≡ before_item kinds.LET value 0 phase 0 }
{
    match (value, phase) {
        (_, 0) => &[word::LET],
        (0, 1) => &[word::EQ],
        (1.., 1) => &[word::COLON],
        (1.., 2) => &[word::EQ],
        _ => &[],
    }
}

// Behind the word of a function: its name, params, and what isn't one.
fn before_headed(w: Words, phase: u64, res: bool, child: u64) -> Words
    ensures { (n : ℕ) → w.now ≡ n ∷ [] → result.now ≡ before_headed n res phase child }
{
    let param = child == kind::TYPED_NAME;
    match (phase, param, res) {
        (0, _, _) => w,
        (BEHIND_NAME, true, _) => &[word::ROUND_LEFT],
        (BEHIND_NAME, false, true) => &[word::ROUND_LEFT, word::ROUND_RIGHT, word::ARROW],
        (BEHIND_NAME, false, false) => &[word::ROUND_LEFT, word::ROUND_RIGHT],
        (PARAMED, true, _) => &[word::COMMA],
        (PARAMED, false, true) => &[word::ROUND_RIGHT, word::ARROW],
        (PARAMED, false, false) => &[word::ROUND_RIGHT],
        _ => &[],
    }
}

fn before_imported(phase: u64, child: u64) -> Words
    ensures { result.now ≡ before_imported phase child }
{
    match (child, phase) {
        (kind::NAME, 0) => &[],
        (kind::NAME, _) => &[word::PERIOD],
        (_, GROUPED) => &[word::COMMA],
        _ => &[word::PERIOD, word::CURLY_LEFT],
    }
}

#[tactic(auto, unfolding(crate::specs::Phases::before_item))]
fn before_item(k: u64, value: u64, detail: u64, phase: u64, child: u64) -> Words
    ensures { result.now ≡ before_item k value detail phase child }
{
    match (k, phase) {
        (kind::LET, _) => before_bound(value, phase),
        (kind::IMPORT, 0) => &[word::IMPORT],
        (kind::CONST, 0) => &[word::CONST],
        (kind::CONST, 1) => &[word::COLON],
        (kind::CONST, 2) => &[word::EQ],
        (kind::FN, _) => before_headed(&[word::FN], phase, value == 1, child),
        (kind::TEST, 0) => &[word::TEST],
        (kind::IMPORT_PATH, _) => before_imported(phase, child),
        (kind::FILTER, _) => before_headed(filter_word(detail), phase, false, child),
        _ => &[],
    }
}

// The words before the next child, of this kind.
#[tactic(auto, unfolding(crate::specs::Phases::before))]
fn words_before(row: Mark, phase: u64, child: u64) -> Words
    ensures { result.now ≡ before row.kind row.value row.detail phase child }
{
    match row.kind {
        ..kind::BINARY => before_type(row.kind, row.value, phase),
        ..kind::IF => before_operand(row.kind, row.detail, phase),
        ..kind::LET => before_part(row.kind, row.value, phase),
        _ => before_item(row.kind, row.value, row.detail, phase, child),
    }
}

// The phase behind a child.

fn behind_param(phase: u64, child: u64) -> u64
    ensures { result ≡ behind_param phase child }
{
    match (phase, child) {
        (0, _) => BEHIND_NAME,
        (1 | 2, kind::TYPED_NAME) => PARAMED,
        _ => BEHIND_PARAMS,
    }
}

fn behind_statement(child: u64) -> u64
    ensures { result ≡ behind_statement child }
{
    match child {
        kind::LET | kind::IMPORT => BEHIND_BOUND,
        _ if is_four(child) => BEHIND_FOUR,
        _ => BEHIND_EXPR,
    }
}

// Behind the pattern, the guard or the body of an arm.
fn behind_part(value: u64, phase: u64, child: u64) -> u64
    ensures { result ≡ behind_part value phase child }
{
    match (value, phase) {
        (_, 0) => 1,
        (1.., 1) => 2,
        (0, 1) | (1.., 2) if child == kind::BLOCK => BEHIND_BLOCK,
        (0, 1) | (1.., 2) => BEHIND_BODY,
        _ => phase,
    }
}

fn behind_imported(child: u64) -> u64
    ensures { result ≡ cond (eqb child kinds.NAME) 1 2 }
{
    if child == kind::NAME {
        BEHIND_NAME
    } else {
        GROUPED
    }
}

// How far it is behind a child of this kind.
#[tactic(auto, unfolding(crate::specs::Phases::next))]
pub fn next_phase(row: Mark, phase: u64, child: u64) -> u64
    ensures { result ≡ next row.kind row.value phase child }
{
    match row.kind {
        kind::ARM => behind_part(row.value, phase, child),
        kind::BLOCK => behind_statement(child),
        kind::FN | kind::FILTER => behind_param(phase, child),
        kind::IMPORT_PATH => behind_imported(child),
        _ if phase < LATER => phase + 1,
        _ => LATER,
    }
}

// The words behind the last child; of a list, all its words where it has no child.

#[tactic(auto, unfolding(crate::specs::Phases::end_of_type))]
fn end_of_type(k: u64, value: u64, phase: u64) -> Words
    ensures { result.now ≡ end_of_type k value phase }
{
    match (k, phase) {
        (kind::NEVER, _) => &[word::BANG],
        (kind::UNIT, _) => &[word::ROUND_LEFT, word::ROUND_RIGHT],
        (kind::OPTION, _) => &[word::QUESTION_MARK],
        (kind::PATH_TYPE, _) if value == 0 => &[],
        (kind::PATH_TYPE, 0 | 1) => &[word::SQUARE_LEFT, word::SQUARE_RIGHT],
        (kind::PATH_TYPE, _) => &[word::SQUARE_RIGHT],
        (kind::RECORD_TYPE, 0) => &[word::CURLY_LEFT, word::CURLY_RIGHT],
        (kind::RECORD_TYPE, _) => &[word::CURLY_RIGHT],
        _ => &[],
    }
}

#[tactic(auto, unfolding(crate::specs::Phases::end_of_operand))]
fn end_of_operand(k: u64, detail: u64, phase: u64) -> Words
    ensures { result.now ≡ end_of_operand k detail phase }
{
    match (k, phase) {
        (kind::CALL, 0 | 1) => &[word::ROUND_LEFT, word::ROUND_RIGHT],
        (kind::CALL, _) => &[word::ROUND_RIGHT],
        (kind::QUESTION, _) => &[word::QUESTION_MARK],
        (kind::RETURN, 0) => return_word(detail),
        _ => &[],
    }
}

fn end_of_arm(phase: u64, more: bool) -> Words
    ensures { result.now ≡ cond (more && not (eqb phase 3)) (comma ∷ []) [] }
{
    if more && phase != BEHIND_BLOCK {
        return &[word::COMMA];
    }
    &[]
}

#[tactic(auto, unfolding(crate::specs::Phases::end_of_part))]
fn end_of_patterns(value: u64, phase: u64) -> Words
    ensures { result.now ≡ end_of_part kinds.VARIANT value phase false }
{
    match (value, phase) {
        (0, _) => &[],
        (_, 0 | 1) => &[word::ROUND_LEFT, word::ROUND_RIGHT],
        _ => &[word::ROUND_RIGHT],
    }
}

#[tactic(auto, unfolding(crate::specs::Phases::end_of_part))]
fn end_of_block(value: u64, phase: u64) -> Words
    ensures { result.now ≡ end_of_part kinds.BLOCK value phase false }
{
    match (value, phase) {
        (_, 0) => &[word::CURLY_LEFT, word::CURLY_RIGHT],
        (0, BEHIND_FOUR..) => &[word::SEMI_COLON, word::CURLY_RIGHT],
        _ => &[word::CURLY_RIGHT],
    }
}

#[tactic(auto, unfolding(crate::specs::Phases::end_of_part))]
fn end_of_record(value: u64, phase: u64) -> Words
    ensures { result.now ≡ end_of_part kinds.RECORD value phase false }
{
    match (value, phase) {
        (_, 0) | (1.., 1) => &[word::CURLY_LEFT, word::CURLY_RIGHT],
        _ => &[word::CURLY_RIGHT],
    }
}

#[tactic(auto, unfolding(crate::specs::Phases::end_of_part))]
fn end_of_part(k: u64, value: u64, phase: u64, more: bool) -> Words
    ensures { result.now ≡ end_of_part k value phase more }
{
    match (k, phase) {
        (kind::MATCH, 0 | 1) => &[word::CURLY_LEFT, word::CURLY_RIGHT],
        (kind::MATCH, _) => &[word::CURLY_RIGHT],
        (kind::ARM, _) => end_of_arm(phase, more),
        (kind::VARIANT, _) => end_of_patterns(value, phase),
        (kind::BLOCK, _) => end_of_block(value, phase),
        (kind::RECORD, _) => end_of_record(value, phase),
        _ => &[],
    }
}

#[tactic(auto, unfolding(crate::specs::Phases::end_of_item))]
fn end_of_item(k: u64, phase: u64) -> Words
    ensures { result.now ≡ end_of_item k phase }
{
    match (k, phase) {
        (kind::LET | kind::IMPORT | kind::CONST, _) => &[word::SEMI_COLON],
        (kind::IMPORT_PATH, GROUPED) => &[word::CURLY_RIGHT],
        _ => &[],
    }
}

#[tactic(auto, unfolding(crate::specs::Phases::behind))]
fn last_words(row: Mark, phase: u64, more: bool) -> Words
    ensures { result.now ≡ behind row.kind row.value row.detail phase more }
{
    match row.kind {
        ..kind::BINARY => end_of_type(row.kind, row.value, phase),
        ..kind::IF => end_of_operand(row.kind, row.detail, phase),
        ..kind::LET => end_of_part(row.kind, row.value, phase, more),
        _ => end_of_item(row.kind, phase),
    }
}

// Up to three words in one number, as the sink reads them; behind them what another number says.
#[tactic(auto, unfolding(crate::specs::Packed::packed))]
fn packed(words: &[u64], behind: u64) -> u64
    requires { packed words.now behind < past_three }
    ensures { result ≡ packed words.now behind }
{
    match words.split_first() {
        Some((word, rest)) => word + 1 + DIGIT * packed(rest, behind),
        None => behind,
    }
}

fn parenthesis(pair: bool) -> u64
    ensures { result ≡ cond pair 44 0 }
{
    if pair { word::ROUND_RIGHT + 1 } else { 0 }
}

// The words behind a row's last child, and its `)`.
pub fn ending(row: Mark, phase: u64, more: bool, pair: bool) -> u64
    ensures { said result ≡ signs (behind row.kind row.value row.detail phase more) ++ closing pair }
{
    packed(last_words(row, phase, more), parenthesis(pair))
}

// What waits: a place and the words before it in one number.
// kept: it lies in the lent plan, a fixed table of numbers; its size for a row is promised.

fn bit(b: bool) -> u64
    ensures { result ≡ cond b 1 0 }
{
    u64::from(b)
}

fn unless_bits(unless: Unless) -> u64
    ensures { (unless_in result ≡ unless) × (result < 4) }
{
    match unless {
        Unless::Nothing => 0,
        Unless::Four => 1,
        Unless::Brace => 2,
    }
}

fn waiting(c: Place, words: u64) -> u64
    requires words_lt_past_three { words < past_three }
    requires level_bound { c.level < 8 }
    ensures { (place_in result ≡ meant c) × (said result ≡ said words) }
{
    words
        + WORDS
            * (c.level
                + 8 * (bit(c.records)
                    + 2 * (bit(c.path) + 2 * (bit(c.more) + 2 * unless_bits(c.unless)))))
}

pub fn place_of(packed: u64) -> Place
    ensures { meant result ≡ place_in packed }
{
    let c = packed / WORDS;
    Place {
        level: c % 8,
        records: c / 8 % 2 == 1,
        path: c / 16 % 2 == 1,
        more: c / 32 % 2 == 1,
        unless: Unless::of(c / 64 % 4),
    }
}

// A tree's root, as it waits.
pub fn waiting_root() -> u64
    ensures { (place_in result ≡ canon.whole) × (said result ≡ []) }
{
    waiting(Place::whole(), 0)
}

// The next child of a row at c, as it waits.
pub fn waiting_child(row: Mark, c: Place, phase: u64, child: u64, more: bool) -> u64
    ensures { (place_in result ≡ under row.kind row.value row.detail (meant c) phase child more) × (said result ≡ signs (before row.kind row.value row.detail phase child)) }
{
    waiting(
        place_under(row, c, phase, child, more),
        packed(words_before(row, phase, child), 0),
    )
}
