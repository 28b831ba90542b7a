// The words by which the reader chooses, and what they give: document 01's lists of words as tests.
#![tactic(auto)]

ghost use Rattle.std.specs.Prelude.{◌≡◌};
ghost use Rattle.rows.specs.Kinds as kinds;
ghost use Rattle.grammar.specs.Words.{names, path_items, literals, four_words, assign_signs, compare_signs, sum_signs, product_signs};
ghost use Rattle.grammar.specs.Grammar.{one_of};
ghost use Rattle.grammar.specs.Rows.{detail_for};
ghost use Rattle.promises.specs.Firsts.{level_of, expr_firsts, type_firsts, statement_firsts, firsts_by, postfix_signs, ends_return, closing_of, sign_words, sign_kind};

use rows::kind;
use tokens::word;

pub fn is_name(word: u64) -> bool
    ensures { result ≡ one_of word names }
{
    matches!(word, word::NAME | word::UNDERSCORE)
}

pub fn is_path_item(word: u64) -> bool
    ensures { result ≡ one_of word path_items }
{
    matches!(
        word,
        word::NAME | word::UNDERSCORE | word::PKG | word::DEP | word::SUPER | word::STD
    )
}

pub fn is_literal(word: u64) -> bool
    ensures { result ≡ one_of word literals }
{
    matches!(
        word,
        word::INTEGER
            | word::FLOAT
            | word::HEX
            | word::ASN
            | word::IPV4
            | word::IPV6
            | word::STRING
            | word::CHAR
            | word::BOOL
    )
}

pub fn is_four(word: u64) -> bool
    ensures { result ≡ one_of word four_words }
{
    matches!(word, word::IF | word::MATCH | word::WHILE | word::FOR)
}

pub fn is_assign(word: u64) -> bool
    ensures { result ≡ one_of word assign_signs }
{
    matches!(
        word,
        word::EQ
            | word::PLUS_EQ
            | word::MINUS_EQ
            | word::STAR_EQ
            | word::SLASH_EQ
            | word::PERCENT_EQ
    )
}

// An assignment's detail: 0 for `=`, then 1 to 5.
pub fn assign_detail(word: u64) -> u64
    ensures { result ≡ detail_for kinds.ASSIGN word }
{
    match word {
        word::PLUS_EQ => 1,
        word::MINUS_EQ => 2,
        word::STAR_EQ => 3,
        word::SLASH_EQ => 4,
        word::PERCENT_EQ => 5,
        _ => 0,
    }
}

// A return form's detail; 0 for a word that begins none.
pub fn return_detail(word: u64) -> u64
    ensures { result ≡ detail_for kinds.RETURN word }
{
    match word {
        word::RETURN => 1,
        word::ACCEPT => 2,
        word::REJECT => 3,
        _ => 0,
    }
}

// A binary sign's detail, from the loosest on; 0 for a word that is none.
pub fn binary_detail(word: u64) -> u64
    ensures { result ≡ detail_for kinds.BINARY word }
{
    match word {
        word::PIPE_PIPE => 1,
        word::AMP_AMP => 2,
        word::EQ_EQ => 3,
        word::BANG_EQ => 4,
        word::ANGLE_LEFT => 5,
        word::ANGLE_LEFT_EQ => 6,
        word::ANGLE_RIGHT => 7,
        word::ANGLE_RIGHT_EQ => 8,
        word::PLUS => 9,
        word::HYPHEN => 10,
        word::STAR => 11,
        word::SLASH => 12,
        word::PERCENT => 13,
        _ => 0,
    }
}

pub fn is_compare(word: u64) -> bool
    ensures { result ≡ one_of word compare_signs }
{
    matches!(
        word,
        word::EQ_EQ
            | word::BANG_EQ
            | word::ANGLE_LEFT
            | word::ANGLE_LEFT_EQ
            | word::ANGLE_RIGHT
            | word::ANGLE_RIGHT_EQ
    )
}

pub fn is_sum(word: u64) -> bool
    ensures { result ≡ one_of word sum_signs }
{
    matches!(word, word::PLUS | word::HYPHEN)
}

pub fn is_product(word: u64) -> bool
    ensures { result ≡ one_of word product_signs }
{
    matches!(word, word::STAR | word::SLASH | word::PERCENT)
}

// How tight a binary sign binds: 1 `||`; 2 `&&`; 3 comparisons; 4 `+ -`; 5 `* / %`; 0 for a word that is none.
pub fn binary_level(word: u64) -> u64
    ensures { result ≡ level_of word }
{
    if word == word::PIPE_PIPE {
        return 1;
    }
    if word == word::AMP_AMP {
        return 2;
    }
    if is_compare(word) {
        return 3;
    }
    if is_sum(word) {
        return 4;
    }
    if is_product(word) {
        return 5;
    }
    0
}

pub fn can_begin_expr(word: u64) -> bool
    ensures { result ≡ one_of word expr_firsts }
{
    (word == word::RETURN)
        | (word == word::ACCEPT)
        | (word == word::REJECT)
        | (word == word::BANG)
        | (word == word::HYPHEN)
        | (word == word::ROUND_LEFT)
        | (word == word::CURLY_LEFT)
        | (word == word::F_QUOTE)
        | is_literal(word)
        | is_path_item(word)
        | is_four(word)
}

pub fn can_begin_type(word: u64) -> bool
    ensures { result ≡ one_of word type_firsts }
{
    (word == word::BANG)
        | (word == word::ROUND_LEFT)
        | (word == word::CURLY_LEFT)
        | is_path_item(word)
}

pub fn can_begin_statement(word: u64) -> bool
    ensures { result ≡ one_of word statement_firsts }
{
    (word == word::IMPORT) | (word == word::LET) | can_begin_expr(word)
}

// `tests`: by the old grammar, in which `test` begins one too (C-22).
pub fn begins_declaration(word: u64, tests: bool) -> bool
    ensures { result ≡ one_of word (firsts_by tests) }
{
    (word == word::CONST)
        | (word == word::FN)
        | (word == word::IMPORT)
        | ((word == word::TEST) & tests)
        | (word == word::FILTER)
        | (word == word::FILTERMAP)
}

// `?`, `(` or `.` behind an atom.
pub fn is_postfix(word: u64) -> bool
    ensures { result ≡ one_of word postfix_signs }
{
    matches!(word, word::QUESTION_MARK | word::ROUND_LEFT | word::PERIOD)
}

pub fn ends_return(word: u64, records: bool) -> bool
    ensures { result ≡ ends_return word records }
{
    records && !can_begin_expr(word)
}

pub fn closing_of(bracket: u64) -> u64
    ensures { result ≡ closing_of bracket }
{
    if bracket == word::ROUND_LEFT {
        word::ROUND_RIGHT
    } else {
        word::CURLY_RIGHT
    }
}

// `!` or `-`.
pub fn is_sign(word: u64) -> bool
    ensures { result ≡ one_of word sign_words }
{
    matches!(word, word::BANG | word::HYPHEN)
}

pub fn sign_kind(word: u64) -> u64
    ensures { result ≡ sign_kind word }
{
    if word == word::BANG {
        kind::NOT
    } else {
        kind::NEGATE
    }
}
