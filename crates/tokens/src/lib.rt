// Document 01's lexer: from bytes to tokens. It follows lexer.rs, function by function.
#![tactic(auto)]

ghost use Rattle.std.specs.Prelude.{Some, None, Ok, Err, ◌≡◌, true, false, cond, ◌+◌, ◌≤◌, ◌<◌, length, eqb};
ghost use Rattle.chars.specs.Chars.{is_blank, byte_at};
ghost use Rattle.chars.specs.Runs.{past_span};
ghost use Rattle.tokens.specs.Results.{Step};
ghost use Rattle.tokens.specs.Words.{code_of, two_sign, one_sign};
ghost use Rattle.tokens.specs.Blanks.{past_comment, skip_all};
ghost use Rattle.tokens.specs.Rules.{pair_at, colons_at, fraction_at, dotted_at, three_at, decimal_group, ipv6_at, period_at, ipv4_at, two_at, one_at, as_at, hex_at, number_at, goes_on, escapes, quote_at, is_name_start, name_at, token_at, or_else, taken, refused};
ghost use Rattle.tokens.specs.Tokens.{step_at, step_numbers, bad, whole_of, unless, refusal, counted, last_of, answer_of};

use chars::{Answer, Class, MOST_BYTES, refusal};

mod keywords;
pub mod word;

// How many bytes of a text are tested at once.
const TEXT_BLOCK: usize = 16;

// Bytes that the rules ask for, of the type in which a place is read.
const BACKSLASH: u16 = b'\\' as u16;

const CHAR_QUOTE: u16 = b'\'' as u16;

const COLON: u16 = b':' as u16;

const PERIOD: u16 = b'.' as u16;

const SLASH: u16 = b'/' as u16;

const SPACE: u16 = b' ' as u16;

const STRING_QUOTE: u16 = b'"' as u16;

const UNDERSCORE: u16 = b'_' as u16;

// The first number that is no byte: what stands past the end.
const NO_BYTE: u16 = 256;

// The codes of words that are no literals: the numbers of their rules.
const TWO_SIGNS: u64 = 3;

const ONE_SIGN: u64 = 4;

const KEYWORD: u64 = 11;

// A place in a source. A step hands back the next.
#[derive(Clone, Copy, Debug, PartialEq, Eq)]
pub struct Cursor {
    pub at: usize,
}

#[repr(C)]
#[derive(Clone, Copy, Debug, PartialEq, Eq)]
pub struct Token {
    pub code: u64,
    pub start: usize,
    pub end: usize,
}

#[derive(Clone, Copy, Debug, PartialEq, Eq)]
pub struct Refusal {
    pub number: u64,
    pub start: usize,
    pub end: usize,
}

// A token, its word and where it starts, with the next cursor, where it ends; or a refusal: 4, 5, and 11 at the end.
pub type Step = Result<(u64, usize, Cursor), Refusal>;

// How far a rule reaches, and the word it has found there.
pub type Fit = Option<(usize, u64)>;

// Two bytes stand at a place.
fn pair_at(s: &[u8], at: usize, a: u8, b: u8) -> bool
    ensures { result ≡ pair_at s.now at a b }
{
    if chars::byte_at(s, at) == u16::from(a) {
        chars::byte_at(s, at + 1) == u16::from(b)
    } else {
        false
    }
}

// Past the newline of the line that a place is in, or at the end.
fn past_comment(s: &[u8], at: usize) -> usize
    ensures { result ≡ past_comment s.now at }
{
    let end = chars::past_line(s, at);
    if end < s.len() { end + 1 } else { end }
}

// Neither blank nor `/`: nothing is skipped here, as before most tokens.
fn is_solid(b: u16) -> bool
    ensures { result ≡ true → (is_blank b ≡ false) × (eqb b 47 ≡ false) }
{
    if b <= SPACE {
        return false;
    }
    b != SLASH
}

// kept: no `for`, since a turn goes on behind a whole comment.
fn skip_whitespace(s: &[u8], at: usize) -> usize
    ensures { result ≡ skip_all s.now at }
{
    if is_solid(chars::byte_at(s, at)) {
        return at;
    }
    let mut i = chars::past(s, at, Class::Blank);
    while pair_at(s, i, b'/', b'/') {
        i = chars::past(s, past_comment(s, i), Class::Blank);
    }
    i
}

// Hex digits and colons, with two colons at least.
fn colons(s: &[u8], at: usize) -> Fit
    ensures { result ≡ colons_at s.now at }
{
    let a = chars::past(s, at, Class::HexDigit);
    if chars::byte_at(s, a) != COLON {
        return None;
    }
    let b = chars::past(s, a + 1, Class::HexDigit);
    if chars::byte_at(s, b) != COLON {
        return None;
    }
    Some((chars::past(s, b + 1, Class::HexColon), word::IPV6))
}

// `.` and a digit.
fn fraction_at(s: &[u8], at: usize) -> bool
    ensures { result ≡ fraction_at s.now at }
{
    if chars::byte_at(s, at) == PERIOD {
        chars::is_digit(chars::byte_at(s, at + 1))
    } else {
        false
    }
}

// A period with digits.
fn dotted(s: &[u8], at: usize) -> Fit
    ensures { result ≡ dotted_at s.now at }
{
    if fraction_at(s, at) {
        return Some((chars::past(s, at + 1, Class::Digit), word::IPV6));
    }
    None
}

// Three times a period with digits.
fn three_dotted(s: &[u8], at: usize) -> Fit
    ensures { result ≡ three_at s.now at }
{
    let (a, _) = dotted(s, at)?;
    let (b, _) = dotted(s, a)?;
    dotted(s, b)
}

// Whether the last group of an address that ends at a place is decimal digits only. Nothing before that group is read.
fn decimal_group(s: &[u8], end: usize) -> bool
    ensures { result ≡ decimal_group s.now end }
{
    let group = chars::behind_last(s, end, COLON);
    if group < end {
        chars::past(s, group, Class::Digit) == end
    } else {
        false
    }
}

// Few tokens have a period behind them, so the last group is looked at last.
fn ipv6(s: &[u8], at: usize) -> Fit
    ensures { result ≡ ipv6_at s.now at }
{
    let (end, _) = colons(s, at)?;
    let Some((fourth, _)) = three_dotted(s, end) else {
        return Some((end, word::IPV6));
    };
    if decimal_group(s, end) {
        Some((fourth, word::IPV6))
    } else {
        Some((end, word::IPV6))
    }
}

// Digits and a period.
fn period(s: &[u8], at: usize) -> Fit
    ensures { result ≡ period_at s.now at }
{
    if chars::is_digit(chars::byte_at(s, at)) {
        let end = chars::past(s, at, Class::Digit);
        if chars::byte_at(s, end) == PERIOD {
            return Some((end + 1, word::IPV4));
        }
    }
    None
}

fn ipv4(s: &[u8], at: usize) -> Fit
    ensures { result ≡ ipv4_at s.now at }
{
    let (a, _) = period(s, at)?;
    let (b, _) = period(s, a)?;
    let (c, _) = period(s, b)?;
    Some((chars::past(s, c, Class::Digit), word::IPV4))
}

// kept: in these four functions NONE and no Option, since 0 is what the definitions say of other bytes (specs/Words.antt, two_sign and one_sign).
// `== != <= >= += -= *= /= %=`: the word of a sign that `=` stands behind.
fn sign_equals(a: u8) -> u64
    ensures { result ≡ two_sign a 61 }
{
    match a {
        b'=' => word::EQ_EQ,
        b'!' => word::BANG_EQ,
        b'<' => word::ANGLE_LEFT_EQ,
        b'>' => word::ANGLE_RIGHT_EQ,
        b'+' => word::PLUS_EQ,
        b'-' => word::MINUS_EQ,
        b'*' => word::STAR_EQ,
        b'/' => word::SLASH_EQ,
        b'%' => word::PERCENT_EQ,
        _ => word::NONE,
    }
}

// `=> ->`: the word of a sign that `>` stands behind.
fn sign_angle(a: u8) -> u64
    ensures { result ≡ two_sign a 62 }
{
    match a {
        b'=' => word::FAT_ARROW,
        b'-' => word::ARROW,
        _ => word::NONE,
    }
}

// By the second sign first: few bytes are one, so that most tokens are done here.
fn two_sign(a: u8, b: u8) -> u64
    ensures { result ≡ two_sign a b }
{
    match b {
        b'=' => sign_equals(a),
        b'>' => sign_angle(a),
        b'&' => if a == b'&' { word::AMP_AMP } else { word::NONE },
        b'|' => if a == b'|' {
            word::PIPE_PIPE
        } else {
            word::NONE
        },
        _ => word::NONE,
    }
}

fn two_char_punctuation(s: &[u8], at: usize) -> Fit
    ensures { result ≡ two_at s.now at }
{
    if at < s.len() && at + 1 < s.len() {
        let word = two_sign(s[at], s[at + 1]);
        if word != word::NONE {
            return Some((at + 2, word));
        }
    }
    None
}

fn one_sign(b: u8) -> u64
    ensures { result ≡ one_sign b }
{
    match b {
        b'{' => word::CURLY_LEFT,
        b'}' => word::CURLY_RIGHT,
        b'(' => word::ROUND_LEFT,
        b')' => word::ROUND_RIGHT,
        b'[' => word::SQUARE_LEFT,
        b']' => word::SQUARE_RIGHT,
        b':' => word::COLON,
        b';' => word::SEMI_COLON,
        b',' => word::COMMA,
        b'.' => word::PERIOD,
        b'=' => word::EQ,
        b'?' => word::QUESTION_MARK,
        b'!' => word::BANG,
        b'-' => word::HYPHEN,
        b'+' => word::PLUS,
        b'*' => word::STAR,
        b'/' => word::SLASH,
        b'%' => word::PERCENT,
        b'<' => word::ANGLE_LEFT,
        b'>' => word::ANGLE_RIGHT,
        _ => word::NONE,
    }
}

fn one_char_punctuation(s: &[u8], at: usize) -> Fit
    ensures { result ≡ one_at s.now at }
{
    if at < s.len() {
        let word = one_sign(s[at]);
        if word != word::NONE {
            return Some((at + 1, word));
        }
    }
    None
}

fn as_number(s: &[u8], at: usize) -> Fit
    ensures { result ≡ as_at s.now at }
{
    if pair_at(s, at, b'A', b'S') {
        if chars::is_digit(chars::byte_at(s, at + 2)) {
            return Some((chars::past(s, at + 2, Class::Digit), word::ASN));
        }
    }
    None
}

fn hex_number(s: &[u8], at: usize) -> Fit
    ensures { result ≡ hex_at s.now at }
{
    if pair_at(s, at, b'0', b'x') {
        Some((chars::past(s, at + 2, Class::HexDigit), word::HEX))
    } else {
        None
    }
}

fn number(s: &[u8], at: usize) -> Fit
    ensures { result ≡ number_at s.now at }
{
    if chars::is_digit(chars::byte_at(s, at)) {
        let whole = chars::past(s, at, Class::Figure);
        if fraction_at(s, whole) {
            let end = chars::past(s, whole + 1, Class::Figure);
            return Some((chars::past(s, end, Class::NamePart), word::FLOAT));
        }
        return Some((chars::past(s, whole, Class::NamePart), word::INTEGER));
    }
    None
}

fn goes_on(quote: u16, escaped: bool, b: u16) -> bool
    ensures { result ≡ goes_on quote escaped b }
{
    (escaped | (b != quote)) & (b < NO_BYTE)
}

// From a place on past the blocks that a text goes on through without a backslash.
fn text_blocks(s: &[u8], at: usize, quote: u8) -> usize
    ensures { past_span (goes_on quote) escapes false s.now result ≡ past_span (goes_on quote) escapes false s.now at }
{
    chars::past_blocks::<_, TEXT_BLOCK>(s, at, |b| (b == quote) | (b == b'\\'))
}

// The place of the first backslash from `at` on, or where the text ends before it.
// kept: a `while` and no search by an iterator, since the text ends before the source does at its quote, or past it.
fn plain_text(s: &[u8], at: usize, quote: u16) -> usize
    ensures lower_bound { (at ≤ result) × (past_span (goes_on quote) escapes false s.now result ≡ past_span (goes_on quote) escapes false s.now at) }
    ensures result_value { goes_on quote false (byte_at s.now result) ≡ true → byte_at s.now result ≡ 92 }
{
    let mut i = at;
    while goes_on(quote, false, chars::byte_at(s, i)) & (chars::byte_at(s, i) != BACKSLASH) {
        i += 1;
    }
    i
}

// Past a backslash and the byte that it escapes.
fn past_escape(s: &[u8], at: usize, quote: u16) -> usize
    requires { (goes_on quote false (byte_at s.now at) ≡ true) × (byte_at s.now at ≡ 92) }
    ensures { (at < result) × (past_span (goes_on quote) escapes false s.now result ≡ past_span (goes_on quote) escapes false s.now at) }
{
    if goes_on(quote, true, chars::byte_at(s, at + 1)) {
        at + 2
    } else {
        at + 1
    }
}

// The place of the quote that closes what starts at `at`, or the end.
// kept: no `for`, since a turn goes on behind an escape and the plain text after it.
fn closing(s: &[u8], at: usize, quote: u16) -> usize
    ensures { result ≡ past_span (goes_on quote) escapes false s.now at }
{
    let mut i = plain_text(s, at, quote);
    while goes_on(quote, false, chars::byte_at(s, i)) {
        i = plain_text(s, past_escape(s, i, quote), quote);
    }
    i
}

// From a quote through the one that closes it, where the source goes on behind that.
fn quoted(s: &[u8], at: usize, quote: u16, word: u64) -> Fit
    requires { quote < 256 }
    ensures { result ≡ quote_at quote word s.now at }
{
    if chars::byte_at(s, at) == quote {
        let close = closing(s, text_blocks(s, at + 1, quote as u8), quote);
        if close < s.len() && close + 1 < s.len() {
            return Some((close + 1, word));
        }
    }
    None
}

fn is_name_start(b: u16) -> bool
    ensures { result ≡ is_name_start b }
{
    chars::is_letter(b) | (b == UNDERSCORE)
}

// The keyword or name that begins at a place, and where it ends.
pub fn keyword_or_ident(s: &[u8], at: usize) -> Fit
    ensures { result ≡ name_at s.now at }
{
    if is_name_start(chars::byte_at(s, at)) {
        let end = chars::past_name(s, at + 1);
        Some((end, keywords::name_word(&s[at..end])))
    } else {
        None
    }
}

// The number of the rule that a word stands in.
pub fn code_of(word: u64) -> u64
    ensures { result ≡ code_of word }
{
    match word {
        word::ACCEPT.. => KEYWORD,
        word::CURLY_LEFT.. => ONE_SIGN,
        word::EQ_EQ.. => TWO_SIGNS,
        word::UNDERSCORE => word::NAME,
        _ => word,
    }
}

fn bump(start: usize, end: usize, word: u64) -> Step
    ensures { result ≡ taken start end word }
{
    Ok((word, start, Cursor { at: end }))
}

fn refuse(number: u64, start: usize, end: usize) -> Step
    ensures { result ≡ refused number start end }
{
    Err(Refusal { number, start, end })
}

// 1, where the first byte allows it: an address begins with a hex digit or `:`.
fn address(s: &[u8], at: usize) -> Fit
    ensures { result ≡ ipv6_at s.now at }
{
    if chars::is_class(Class::HexColon, chars::byte_at(s, at)) {
        return ipv6(s, at);
    }
    None
}

// 2, 6, 7 and 8, which begin with a digit.
fn figures(s: &[u8], at: usize) -> Fit
    ensures { (later : Step) → or_else at result later ≡ or_else at (ipv4_at s.now at) (or_else at (hex_at s.now at) (or_else at (number_at s.now at) later)) }
{
    ipv4(s, at)
        .or_else(|| hex_number(s, at))
        .or_else(|| number(s, at))
}

// 3 and 4, the signs.
fn signs(s: &[u8], at: usize) -> Fit
    ensures { (later : Step) → or_else at result later ≡ or_else at (two_at s.now at) (or_else at (one_at s.now at) later) }
{
    two_char_punctuation(s, at).or_else(|| one_char_punctuation(s, at))
}

// 5 and 11 to 13, which begin with a letter or `_`; between them `f"`, which is no token.
// kept: no `or_else`, since what is asked then is a choice of its own.
fn letters(s: &[u8], at: usize) -> Fit
    ensures { or_else at result (cond (pair_at s.now at 102 34) (refused 5 at (at + 2)) (refused 4 at (at + 1))) ≡ or_else at (as_at s.now at) (cond (pair_at s.now at 102 34) (refused 5 at (at + 2)) (or_else at (name_at s.now at) (refused 4 at (at + 1)))) }
{
    let fit = as_number(s, at);
    if let Some(_) = fit {
        return fit;
    }
    if pair_at(s, at, b'f', b'"') {
        return None;
    }
    keyword_or_ident(s, at)
}

// 9 and 10, by the quote.
fn text(s: &[u8], at: usize, quote: u16) -> Fit
    requires { quote < 256 }
    ensures { result ≡ quote_at quote (cond (eqb quote 34) 9 10) s.now at }
{
    let word = if quote == STRING_QUOTE {
        word::STRING
    } else {
        word::CHAR
    };
    quoted(s, at, quote, word)
}

// The first rule that fits, of those that begin with the byte at a place: each rule is asked in one place, so that it is compiled into it.
// kept: no `or_else`, since what is asked then is a choice among five.
fn fit_at(s: &[u8], at: usize) -> Fit
    ensures { or_else at result (cond (pair_at s.now at 102 34) (refused 5 at (at + 2)) (refused 4 at (at + 1))) ≡ token_at s.now at }
{
    let fit = address(s, at);
    if let Some(_) = fit {
        return fit;
    }
    let b = chars::byte_at(s, at);
    if is_name_start(b) {
        return letters(s, at);
    }
    if chars::is_digit(b) {
        return figures(s, at);
    }
    if (b == STRING_QUOTE) | (b == CHAR_QUOTE) {
        return text(s, at, b);
    }
    signs(s, at)
}

// What is refused where no rule fits: `f"`, or one byte.
fn no_token(s: &[u8], at: usize) -> Step
    requires { at < length s.now }
    ensures { result ≡ cond (pair_at s.now at 102 34) (refused 5 at (at + 2)) (refused 4 at (at + 1)) }
{
    if pair_at(s, at, b'f', b'"') {
        return refuse(refusal::F_STRING, at, at + 2);
    }
    refuse(refusal::NO_TOKEN, at, at + 1)
}

// The first rule that fits, at a place inside the source.
fn next_token(s: &[u8], at: usize) -> Step
    requires { at < length s.now }
    ensures { result ≡ token_at s.now at }
{
    if let Some((end, word)) = fit_at(s, at) {
        return bump(at, end, word);
    }
    no_token(s, at)
}

impl Cursor {
    pub fn new() -> Cursor
        ensures { result.at ≡ 0 }
    {
        Cursor { at: 0 }
    }

    // What stands behind the blanks and comments at the cursor.
    pub fn step(self, s: &[u8]) -> Step
        ensures { (result ≡ step_at s.now self.at) × (step_numbers result ≡ step_numbers (step_at s.now self.at)) }
    {
        let at = skip_whitespace(s, self.at);
        if at < s.len() {
            next_token(s, at)
        } else {
            refuse(refusal::ENDS_EARLY, s.len(), s.len())
        }
    }
}

fn refuse_source(number: u64, start: usize, end: usize) -> Result<(), Refusal>
    ensures { result ≡ bad number start end }
{
    Err(Refusal { number, start, end })
}

// What is refused of a source as a whole, before a token of it is read.
pub fn check_source(s: &[u8]) -> Result<(), Refusal>
    ensures { (result ≡ whole_of s.now) × (unless result ≡ unless (whole_of s.now)) }
{
    if MOST_BYTES < s.len() {
        return refuse_source(refusal::TOO_LONG, MOST_BYTES, MOST_BYTES);
    }
    let high = chars::past_ascii(s, 0);
    if high < s.len() {
        return refuse_source(refusal::HIGH_BYTE, high, high + 1);
    }
    if pair_at(s, 0, b'#', b'!') {
        return refuse_source(refusal::SHEBANG, 0, 2);
    }
    Ok(())
}

fn refused_answer(r: Refusal) -> Answer
    ensures { result ≡ refusal r }
{
    Answer {
        number: r.number,
        start: r.start,
        end: r.end,
        count: 0,
    }
}

fn counted_answer(size: usize, count: usize, room: usize) -> Answer
    ensures { result ≡ counted size count room }
{
    if count <= room {
        Answer {
            number: refusal::NONE,
            start: 0,
            end: size,
            count,
        }
    } else {
        Answer {
            number: refusal::NO_ROOM,
            start: 0,
            end: 0,
            count,
        }
    }
}

// The answer where the tokens end: at the source's end, or before it.
fn last_answer(step: Step, size: usize, count: usize, room: usize) -> Answer
    ensures { result ≡ last_of step size count room }
{
    let Err(r) = step else {
        return counted_answer(size, count, room);
    };
    if r.number == refusal::ENDS_EARLY {
        return counted_answer(size, count, room);
    }
    refused_answer(r)
}

// The answer of (c) to a source, with room for so many tokens.
pub fn count_tokens(s: &[u8], room: usize) -> Answer
    ensures { result ≡ answer_of s.now room }
{
    if let Err(r) = check_source(s) {
        return refused_answer(r);
    }
    let mut cursor = Cursor::new();
    let mut count: usize = 0;
    loop {
        let step = cursor.step(s);
        let Ok((_, _, next)) = step else {
            return last_answer(step, s.len(), count, room);
        };
        cursor = next;
        count += 1;
    }
}
