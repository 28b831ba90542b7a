// The text of a print, token by token, in a buffer.
#![tactic(auto)]

ghost use Rattle.std.specs.Prelude.{◌≡◌, ◌++◌, ◌≤◌};
ghost use Rattle.tokens.specs.Words.{two_signs, one_signs, keywords};
ghost use Rattle.grammar.specs.Grammar.{one_of};
ghost use Rattle.canon.specs.Text.{spelled, ends_line, sign, copy};
ghost use Rattle.canon.specs.Events.{opening};
ghost use Rattle.sink.specs.Few.{prefix_words, row_behind};
ghost use Rattle.sink.specs.Told.{written, put, fed, word_text, blank, newline, token, empty, state, tell, telling, digit, said};

use tokens::word;

// How many bytes were written, as far as they count; whether a blank comes before the next token; how many prefix words stand in a row, and one more than may
// once there were too many.
#[derive(Clone, Copy, Debug, PartialEq, Eq)]
pub struct Sink {
    pub at: usize,
    pub gap: bool,
    pub row: u64,
}

// "At most 32 in a row of prefix `!`, `-`, `return`, `accept`, `reject`."
pub const MOST_PREFIXES: u64 = 32;

// More bytes than a print may have.
const MANY: usize = 65536;

// A byte behind those before, where there is room; it counts as far as bytes are counted.
#[tactic(auto, unfolding(crate::specs::Told::put))]
fn put(text: &mut [u8], at: usize, b: u8) -> usize
    ensures { written text.new result ≡ put (written text.old at) b }
{
    if at < text.len() {
        text[at] = b;
    }
    if at < MANY { at + 1 } else { at }
}

fn put_all(text: &mut [u8], at: usize, t: &[u8]) -> usize
    ensures { written text.new result ≡ fed (written text.old at) t.now }
{
    let mut to = at;
    for &b in t {
        to = put(text, to, b);
    }
    to
}

// The texts of words.

#[tactic(auto, unfolding(tokens::specs::Words::two_signs, chars::specs::Texts::bytes))]
fn two_signs(w: u64) -> &'static [u8]
    ensures { result.now ≡ spelled two_signs w }
{
    match w {
        word::EQ_EQ => b"==",
        word::FAT_ARROW => b"=>",
        word::BANG_EQ => b"!=",
        word::ANGLE_LEFT_EQ => b"<=",
        word::ANGLE_RIGHT_EQ => b">=",
        word::AMP_AMP => b"&&",
        word::PIPE_PIPE => b"||",
        word::ARROW => b"->",
        word::PLUS_EQ => b"+=",
        word::MINUS_EQ => b"-=",
        word::STAR_EQ => b"*=",
        word::SLASH_EQ => b"/=",
        word::PERCENT_EQ => b"%=",
        _ => b"",
    }
}

#[tactic(auto, unfolding(tokens::specs::Words::one_signs, chars::specs::Texts::bytes))]
fn one_sign(w: u64) -> &'static [u8]
    ensures { result.now ≡ spelled one_signs w }
{
    match w {
        word::CURLY_LEFT => b"{",
        word::CURLY_RIGHT => b"}",
        word::ROUND_LEFT => b"(",
        word::ROUND_RIGHT => b")",
        word::SQUARE_LEFT => b"[",
        word::SQUARE_RIGHT => b"]",
        word::COLON => b":",
        word::SEMI_COLON => b";",
        word::COMMA => b",",
        word::PERIOD => b".",
        word::EQ => b"=",
        word::QUESTION_MARK => b"?",
        word::BANG => b"!",
        word::HYPHEN => b"-",
        word::PLUS => b"+",
        word::STAR => b"*",
        word::SLASH => b"/",
        word::PERCENT => b"%",
        word::ANGLE_LEFT => b"<",
        word::ANGLE_RIGHT => b">",
        _ => b"",
    }
}

// (`true` and `false` have one word; nothing asks for it.)
#[tactic(auto, unfolding(tokens::specs::Words::keywords, tokens::specs::Words::page, tokens::specs::Words::words_of, chars::specs::Texts::bytes))]
fn keyword(w: u64) -> &'static [u8]
    ensures { result.now ≡ spelled keywords w }
{
    match w {
        word::BOOL => b"true",
        word::ACCEPT => b"accept",
        word::CONST => b"const",
        word::DEP => b"dep",
        word::ELSE => b"else",
        word::ENUM => b"enum",
        word::FILTER => b"filter",
        word::FILTERMAP => b"filtermap",
        word::FOR => b"for",
        word::FN => b"fn",
        word::IF => b"if",
        word::IMPORT => b"import",
        word::IN => b"in",
        word::LET => b"let",
        word::MATCH => b"match",
        word::PKG => b"pkg",
        word::RECORD => b"record",
        word::REJECT => b"reject",
        word::RETURN => b"return",
        word::STD => b"std",
        word::SUPER => b"super",
        word::TEST => b"test",
        word::WHILE => b"while",
        _ => b"",
    }
}

#[tactic(auto, using(crate::proofs::Spelled::two_signs_lem, crate::proofs::Spelled::one_sign, crate::proofs::Spelled::keyword))]
fn text_of(w: u64) -> &'static [u8]
    ensures { result.now ≡ word_text w }
{
    match w {
        word::EQ_EQ..word::CURLY_LEFT => two_signs(w),
        word::CURLY_LEFT..word::ACCEPT => one_sign(w),
        _ => keyword(w),
    }
}

// "!", "-", "return", "accept", "reject"
fn is_prefix(w: u64) -> bool
    ensures { result ≡ one_of w prefix_words }
{
    matches!(
        w,
        word::BANG | word::HYPHEN | word::RETURN | word::ACCEPT | word::REJECT
    )
}

fn ends_line(w: u64) -> bool
    ensures { result ≡ ends_line (sign w) }
{
    matches!(w, word::SEMI_COLON | word::CURLY_LEFT | word::CURLY_RIGHT)
}

fn blank(gap: bool) -> &'static [u8]
    ensures { result.now ≡ blank gap }
{
    if gap { b" " } else { b"" }
}

fn newline(line: bool) -> &'static [u8]
    ensures { result.now ≡ newline line }
{
    if line { b"\n" } else { b"" }
}

// In a row behind one more token.
fn row_behind(row: u64, prefix: bool) -> u64
    ensures { result ≡ row_behind row prefix }
{
    if MOST_PREFIXES < row {
        return row;
    }
    if prefix { row + 1 } else { 0 }
}

// Up to three words in one number, each 1 more than its word, the first in the lowest digit.
// kept: what waits lies in the lent plan, a fixed table of numbers.
pub const DIGIT: u64 = 128;

pub const SQUARE: u64 = 16384;

// More than any number of three words.
pub const WORDS: u64 = 2097152;

// `(` behind three words.
fn round(pair: bool) -> u64
    ensures { (digit result ≡ opening pair) × (result ≤ 127) }
{
    if pair { word::ROUND_LEFT + 1 } else { 0 }
}

impl Sink {
    pub fn new() -> Sink
        ensures { result ≡ empty }
    {
        Sink {
            at: 0,
            gap: false,
            row: 0,
        }
    }

    // "One space between tokens", "but a newline alone after `;`, `{` and `}`."
    #[tactic(auto, using(crate::proofs::Feeds::token_so))]
    fn put_token(&mut self, text: &mut [u8], t: &[u8], line: bool, prefix: bool)
        ensures { state text.new self.new ≡ token (state text.old self.old) t.now line prefix }
    {
        let from = put_all(text, self.at, blank(self.gap));
        let behind = put_all(text, from, t);
        let at = put_all(text, behind, newline(line));
        *self = Sink {
            at,
            gap: !line,
            row: row_behind(self.row, prefix),
        };
    }

    #[tactic(auto, unfolding(crate::specs::Told::tell))]
    pub fn copy(&mut self, text: &mut [u8], t: &[u8])
        ensures { state text.new self.new ≡ tell (state text.old self.old) (copy t.now) }
    {
        self.put_token(text, t, false, false);
    }

    #[tactic(auto, unfolding(crate::specs::Told::tell, crate::specs::Told::word_text))]
    pub fn sign(&mut self, text: &mut [u8], w: u64)
        ensures { state text.new self.new ≡ tell (state text.old self.old) (sign w) }
    {
        self.put_token(text, text_of(w), ends_line(w), is_prefix(w));
    }

    #[tactic(auto, unfolding(crate::specs::Told::telling), using(crate::proofs::Feeds::told_digit))]
    fn word_of(&mut self, text: &mut [u8], d: u64)
        ensures { state text.new self.new ≡ telling (state text.old self.old) (digit d) }
    {
        if 0 < d {
            self.sign(text, d - 1);
        }
    }

    // The words in a number, and `(` behind them. (The one place where a word is written: so it is compiled into its caller's loop.)
    pub fn words(&mut self, text: &mut [u8], packed: u64, pair: bool)
        ensures { state text.new self.new ≡ telling (state text.old self.old) (said packed ++ opening pair) }
    {
        let digits = [
            packed % DIGIT,
            packed / DIGIT % DIGIT,
            packed / SQUARE % DIGIT,
            round(pair),
        ];
        for digit in digits {
            self.word_of(text, digit);
        }
    }
}
