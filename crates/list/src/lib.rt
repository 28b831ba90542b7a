// Entry point (c): a source's tokens, written to a lent run of token structs. A source that is accepted is scanned once.
// `tokens` alone has that run, and only stores; what scans is covered.
#![tactic(auto)]

ghost use Rattle.std.specs.Prelude.{◌≡◌, ◌<◌, length};
ghost use Rattle.tokens.specs.Tokens.{step_at, answer_of};
ghost use Rattle.list.specs.Filled.{zero_token, filled};
ghost use Rattle.list.specs.States.{failed, ended, standing, begun, read_by, next_of};

use chars::{Answer, refusal};
use tokens::{Cursor, Step, Token};

// Where the writer stands: its place in the list, and the cursor from which tokens are read, or none where zero tokens are left to store.
#[derive(Clone, Copy, Debug, PartialEq, Eq)]
pub struct State {
    pub cursor: Option<Cursor>,
    pub place: usize,
    pub answer: Answer,
}

#[derive(Clone, Copy, Debug, PartialEq, Eq)]
pub struct Stored {
    pub token: Token,
    pub state: State,
}

// The list is to be zeros throughout: what is refused is scanned again for its answer.
fn refuse(s: &[u8], room: usize) -> State
    ensures { result ≡ failed s.now room }
{
    State {
        cursor: None,
        place: 0,
        answer: tokens::count_tokens(s, room),
    }
}

// No token is stored behind the first `count`: the source ends there, or it is refused, or there is no room.
fn end(s: &[u8], room: usize, count: usize, step: Step) -> State
    ensures { result ≡ ended s.now room count step }
{
    let Err(r) = step else {
        return refuse(s, room);
    };
    if r.number != refusal::ENDS_EARLY {
        return refuse(s, room);
    }
    let answer = Answer {
        number: refusal::NONE,
        start: 0,
        end: s.len(),
        count,
    };
    State {
        cursor: None,
        place: count,
        answer,
    }
}

// So many tokens are stored, and the source is read up to the cursor. In a full list no other may follow.
fn stand(s: &[u8], room: usize, cursor: Cursor, place: usize) -> State
    ensures { result ≡ standing s.now room cursor place }
{
    if place < room {
        let answer = Answer {
            number: refusal::NONE,
            start: 0,
            end: 0,
            count: 0,
        };
        return State {
            cursor: Some(cursor),
            place,
            answer,
        };
    }
    let step = cursor.step(s);
    end(s, room, place, step)
}

fn begin(s: &[u8], room: usize) -> State
    ensures { result ≡ begun s.now room }
{
    match tokens::check_source(s) {
        Ok(()) => stand(s, room, Cursor::new(), 0),
        Err(_) => refuse(s, room),
    }
}

fn zero() -> Token
    ensures { result ≡ zero_token }
{
    Token {
        code: 0,
        start: 0,
        end: 0,
    }
}

// The later of two places. A token ends behind its start, so that this is its end; but the two are then stored one by one, as the
// step stored them: read back as one pair they wait until both stores are through.
fn later(start: usize, end: usize) -> usize
    ensures { start < end → result ≡ end }
{
    end.max(start)
}

// The token at the cursor; behind the last, a zero token.
fn read(s: &[u8], room: usize, cursor: Cursor, place: usize) -> Stored
    requires { place < room }
    ensures { result ≡ read_by s.now room place (step_at s.now cursor.at) }
{
    let step = cursor.step(s);
    let Ok((word, start, after)) = step else {
        return Stored {
            token: zero(),
            state: end(s, room, place, step),
        };
    };
    let token = Token {
        code: tokens::code_of(word),
        start,
        end: later(start, after.at),
    };
    Stored {
        token,
        state: stand(s, room, after, place + 1),
    }
}

// The token to store, and where that leaves the writer.
fn next(s: &[u8], room: usize, state: State) -> Stored
    requires { state.place < room }
    ensures { result ≡ next_of s.now room state }
{
    if let Some(cursor) = state.cursor {
        return read(s, room, cursor, state.place);
    }
    let answer = state.answer;
    Stored {
        token: zero(),
        state: State {
            cursor: None,
            place: state.place + 1,
            answer,
        },
    }
}

// The answer of (c), and the list: the tokens and then zero tokens, or zero tokens throughout.
pub fn tokens(s: &[u8], list: &mut [Token]) -> Answer
    ensures { (result ≡ answer_of s.now (length list.old)) × (list.new ≡ filled s.now (length list.old)) }
{
    let n = list.len();
    let mut state = begin(s, n);
    // kept: no `for`, since the place goes back to the front where the source is refused.
    while state.place < n {
        let next = next(s, n, state);
        list[state.place] = next.token;
        state = next.state;
    }
    state.answer
}
