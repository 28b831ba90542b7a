// The keywords as the manual prints them: by length, and each length's by the alphabet.
ghost use Rattle.std.specs.Prelude.{◌≡◌};
ghost use Rattle.tokens.specs.Words.{keyword_of, keyword_under, name_word};

use super::word;
use chars::same;

// kept: one `match` on byte strings was tried: the proof of its last arm has a goal for each byte that can differ, 86 in all.
fn two_letters(t: &[u8]) -> u64
    ensures { result ≡ keyword_under 2 t.now }
{
    if same(t, b"fn") {
        return word::FN;
    }
    if same(t, b"if") {
        return word::IF;
    }
    if same(t, b"in") {
        return word::IN;
    }
    word::NAME
}

fn three_letters(t: &[u8]) -> u64
    ensures { result ≡ keyword_under 3 t.now }
{
    if same(t, b"dep") {
        return word::DEP;
    }
    if same(t, b"for") {
        return word::FOR;
    }
    if same(t, b"let") {
        return word::LET;
    }
    if same(t, b"pkg") {
        return word::PKG;
    }
    if same(t, b"std") {
        return word::STD;
    }
    word::NAME
}

fn four_letters(t: &[u8]) -> u64
    ensures { result ≡ keyword_under 4 t.now }
{
    if same(t, b"else") {
        return word::ELSE;
    }
    if same(t, b"enum") {
        return word::ENUM;
    }
    if same(t, b"test") {
        return word::TEST;
    }
    word::NAME
}

fn five_letters(t: &[u8]) -> u64
    ensures { result ≡ keyword_under 5 t.now }
{
    if same(t, b"const") {
        return word::CONST;
    }
    if same(t, b"match") {
        return word::MATCH;
    }
    if same(t, b"super") {
        return word::SUPER;
    }
    if same(t, b"while") {
        return word::WHILE;
    }
    word::NAME
}

fn six_letters(t: &[u8]) -> u64
    ensures { result ≡ keyword_under 6 t.now }
{
    if same(t, b"accept") {
        return word::ACCEPT;
    }
    if same(t, b"filter") {
        return word::FILTER;
    }
    if same(t, b"import") {
        return word::IMPORT;
    }
    if same(t, b"record") {
        return word::RECORD;
    }
    if same(t, b"reject") {
        return word::REJECT;
    }
    if same(t, b"return") {
        return word::RETURN;
    }
    word::NAME
}

fn nine_letters(t: &[u8]) -> u64
    ensures { result ≡ keyword_under 9 t.now }
{
    if same(t, b"filtermap") {
        return word::FILTERMAP;
    }
    word::NAME
}

// The printed page, length first.
fn keyword(t: &[u8]) -> u64
    ensures { result ≡ keyword_of t.now }
{
    match t.len() {
        2 => two_letters(t),
        3 => three_letters(t),
        4 => four_letters(t),
        5 => five_letters(t),
        6 => six_letters(t),
        9 => nine_letters(t),
        _ => word::NAME,
    }
}

// Beside the page stand `_`, `true` and `false`.
pub fn name_word(t: &[u8]) -> u64
    ensures { result ≡ name_word t.now }
{
    if same(t, b"_") {
        return word::UNDERSCORE;
    }
    if same(t, b"true") {
        return word::BOOL;
    }
    if same(t, b"false") {
        return word::BOOL;
    }
    keyword(t)
}
