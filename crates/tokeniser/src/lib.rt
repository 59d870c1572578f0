// The tokens of a text, one after another; spaces, remarks and blank lines count for nothing.
#![tactic(auto)]

ghost use Rattle.std.specs.Prelude.{◌≡◌};
ghost use Rattle.tokens.specs.Tokens;
ghost use Rattle.tokeniser.specs.Places;
ghost use Rattle.tokeniser.specs.Places.{tokens_at};
ghost use Rattle.tokeniser.specs.NextToken.{next_token};

use crate::scan::{token_end, token_start};

mod bytes;
mod scan;

// A place in a text: the next byte to read, and whether its line has begun with a token. A text goes beside its cursor: only the cursor
// moves, and an answer that held the text as well would have to say that it is the same text.
#[derive(Clone, Copy)]
pub struct Cursor {
    pub at: usize,
    pub begun: bool,
}

// The bytes from `from` to `to`, and the place after them.
#[derive(Clone, Copy)]
pub struct Token {
    pub from: usize,
    pub to: usize,
    pub next: Cursor,
}

impl Cursor {
    // The place before the first byte, where a line begins.
    pub fn start() -> Cursor
        ensures { result ≡ Places.start }
    {
        Cursor {
            at: 0,
            begun: false,
        }
    }
}

// The place, or the end of the text where it lies beyond it.
fn inside(s: &[u8], c: Cursor) -> Cursor
    ensures { result ≡ Places.inside s.now c }
{
    Cursor {
        at: c.at.min(s.len()),
        begun: c.begun,
    }
}

// Whether no token is left at the place.
pub fn ended(s: &[u8], c: Cursor) -> bool
    ensures { result ≡ Tokens.ended (tokens_at s.now c) }
{
    let here = inside(s, c);
    token_start(s, here.at, here.begun) == s.len()
}

// The next token, which is empty where none is left.
pub fn next_token(s: &[u8], c: Cursor) -> Token
    ensures { result ≡ next_token s.now c }
{
    let Cursor { at, begun } = inside(s, c);
    let from = token_start(s, at, begun);
    if from == s.len() {
        return Token {
            from,
            to: from,
            next: Cursor { at: from, begun },
        };
    }
    let to = token_end(s, from);
    let next = Cursor {
        at: to,
        begun: s[from] != b'\n',
    };
    Token { from, to, next }
}
