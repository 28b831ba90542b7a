// What could stand at a place: each word of the language that the reader goes past there.
use super::in_json;
use super::page::Page;
use chars::refusal;
use reader::entries;

const COUNT: usize = 67;

// Operators, literals, what else begins an expression, declarations, assignment signs, the rest.
const WORDS: [&str; COUNT] = [
    "==",
    "!=",
    "<",
    "<=",
    ">",
    ">=",
    "&&",
    "||",
    "+",
    "*",
    "/",
    "%",
    "-",
    "1",
    "1.5",
    "0x1",
    "AS1",
    "1.2.3.4",
    "::1",
    "true",
    "\"\"",
    "'a'",
    "f\"\"",
    "if",
    "while",
    "for",
    "match",
    "(",
    "{",
    "!",
    "x",
    "_",
    "pkg",
    "dep",
    "super",
    "std",
    "return",
    "accept",
    "reject",
    "let",
    "import",
    "const",
    "fn",
    "filter",
    "filtermap",
    "test",
    "=",
    "+=",
    "-=",
    "*=",
    "/=",
    "%=",
    "}",
    ")",
    "[",
    "]",
    ":",
    ";",
    ",",
    ".",
    "?",
    "=>",
    "->",
    "in",
    "else",
    "record",
    "enum",
];

// Where in the list the words of a kind begin. A kind is a run of them.
const MINUS: usize = 12;

const LITERALS: usize = 13;

const FOUR: usize = 23;

const TYPES: usize = 27;

pub const NAMES: usize = 30;

const ITEMS: usize = 32;

const RETURNS: usize = 36;

const LET: usize = 39;

const IMPORT: usize = 40;

pub const CONST: usize = 41;

const TEST: usize = 45;

const ASSIGNS: usize = 46;

const OTHERS: usize = 52;

// A run of words with a name.
#[derive(Clone, Copy)]
struct Kind {
    name: &'static str,
    from: usize,
    to: usize,
}

const KIND_COUNT: usize = 10;

// Each behind those that hold it.
const KINDS: [Kind; KIND_COUNT] = [
    Kind {
        name: "a statement",
        from: MINUS,
        to: CONST,
    },
    Kind {
        name: "an expression",
        from: MINUS,
        to: LET,
    },
    Kind {
        name: "an operand",
        from: MINUS,
        to: RETURNS,
    },
    Kind {
        name: "a literal",
        from: LITERALS,
        to: FOUR,
    },
    Kind {
        name: "a type",
        from: TYPES,
        to: RETURNS,
    },
    Kind {
        name: "a path",
        from: NAMES,
        to: RETURNS,
    },
    Kind {
        name: "a name",
        from: NAMES,
        to: ITEMS,
    },
    Kind {
        name: "a declaration",
        from: IMPORT,
        to: TEST,
    },
    Kind {
        name: "an operator",
        from: 0,
        to: LITERALS,
    },
    Kind {
        name: "an assignment sign",
        from: ASSIGNS,
        to: OTHERS,
    },
];

// Whether the reader goes past all of a text: it accepts it, for which it has no room, or wants more.
fn goes_past(t: &[u8]) -> bool {
    let mut none = [0u64; 1];
    let a = entries::tree(t, &mut none);
    (a.number == refusal::NO_ROOM) | (a.number == refusal::ENDS_EARLY)
}

// A source up to a place, in a lent room: words are tried behind it.
#[derive(Drop)]
pub struct Tries<'a> {
    page: Page<'a>,
}

impl<'a> Tries<'a> {
    pub fn new(room: &'a mut [u8], source: &[u8]) -> Tries<'a> {
        let mut page = Page::new(room);
        page.put_all(source);
        Tries { page }
    }

    // Whether the reader goes past a word, with a blank before it and one behind it.
    pub fn pass(&mut self, word: &str) -> bool {
        let len = self.page.written().len();
        self.page.put(b' ');
        self.page.put_all(word.as_bytes());
        self.page.put(b' ');
        let is_passed = goes_past(self.page.written());
        self.page.cut(len);
        is_passed
    }
}

// What the reader goes past at a place: each word, the kinds of which it goes past all, and the words that are of no such kind.
#[derive(Clone, Copy)]
pub struct Expected {
    pub passed: [bool; COUNT],
    kinds: [bool; KIND_COUNT],
    words: [bool; COUNT],
}

// Where no word is asked for.
pub const NOTHING: Expected = Expected {
    passed: [false; COUNT],
    kinds: [false; KIND_COUNT],
    words: [false; COUNT],
};

// Whether all words of a kind are left; they are not, then.
fn take_kind(words: &mut [bool], kind: &Kind) -> bool {
    let is_whole = words.iter().take(kind.to).skip(kind.from).all(|w| *w);
    if is_whole {
        for w in words.iter_mut().take(kind.to).skip(kind.from) {
            *w = false;
        }
    }
    is_whole
}

impl Expected {
    // What could stand behind a source. It is written where it lies: handed back, it would be copied, for which the library for C would need memcpy.
    pub fn fill(&mut self, tries: &mut Tries) {
        for (i, word) in WORDS.iter().enumerate() {
            let is_passed = tries.pass(word);
            self.passed[i] = is_passed;
            self.words[i] = is_passed;
        }
        for (i, kind) in KINDS.iter().enumerate() {
            self.kinds[i] = take_kind(&mut self.words, kind);
        }
    }

    fn count(&self) -> usize {
        let kinds = self.kinds.iter().filter(|k| **k).count();
        let words = self.words.iter().filter(|w| **w).count();
        kinds + words
    }

    // Each item: its name, and whether it is a word.
    fn each<F: FnMut(&str, bool)>(&self, mut put: F)
        requires { F.IsAlwaysCallable put }
    {
        for (kind, is_whole) in KINDS.iter().zip(&self.kinds) {
            if *is_whole {
                put(kind.name, false);
            }
        }
        for (word, is_left) in WORDS.iter().zip(&self.words) {
            if *is_left {
                put(word, true);
            }
        }
    }

    // `  expected ','`, or `  expected one of ',' ')'`, as a line.
    pub fn put_line(&self, page: &mut Page) {
        match self.count() {
            0 => return,
            1 => page.put_all(b"  expected"),
            _ => page.put_all(b"  expected one of"),
        }
        self.each(|name, is_word| {
            page.put_all(if is_word { b" '" } else { b" " });
            page.put_all(name.as_bytes());
            page.put_all(if is_word { b"'" } else { b"" });
        });
        page.put(b'\n');
    }

    // `"a name",","`.
    pub fn put_json(&self, page: &mut Page) {
        let mut comma: &[u8] = b"";
        self.each(|name, _| {
            page.put_all(comma);
            in_json::put_string(page, name);
            comma = b",";
        });
    }
}
