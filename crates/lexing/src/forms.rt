// Forms of tokens, and numbers between them.
ghost use Rattle.std.specs.Prelude.{◌≤◌, min, ◌≡◌, length};
ghost use Rattle.tokens.specs.Tokens.{tokens};
ghost use Rattle.tokeniser.specs.Places.{tokens_at};
ghost use Rattle.tokeniser.specs.NextToken.{bytes_of};
ghost use Rattle.lexing.specs.Forms.{same};
ghost use Rattle.lexing.specs.Forms;
ghost use Rattle.lexing.specs.Numbers.{longest_number, number, number_after, follow_number};
ghost use Rattle.lexing.specs.Results.{place_after, number_from};

use numerals::read_digits;
use tokeniser::{Cursor, Token, ended, next_token};

// Whether a token of the text is that of the form.
fn same_token(s: &[u8], t: Token, form: &[u8], f: Token) -> bool
    requires from_le_to { (t.from ≤ t.to) × (t.to ≤ length s.now) }
    requires from_le_to_2 { (f.from ≤ f.to) × (f.to ≤ length form.now) }
    ensures { result ≡ same (bytes_of form.now f) (bytes_of s.now t) }
{
    form[f.from..f.to] == s[t.from..t.to]
}

// The place after the tokens of the form's text, where these are the next.
pub fn follow(s: &[u8], c: Cursor, form: &[u8]) -> Option<Cursor>
    ensures { result ≡ place_after s.now c (Forms.follow (tokens form.now) (tokens_at s.now c)) }
{
    let mut here = c;
    let mut there = Cursor::start();
    // No range: each turn moves two cursors by a token.
    while !ended(form, there) {
        let f = next_token(form, there);
        let t = next_token(s, here);
        if !same_token(s, t, form, f) {
            return None;
        }
        there = f.next;
        here = t.next;
    }
    Some(here)
}

// A number in one to `most` digits, of which no more than 19 are read, and the place after it.
pub fn read_number(s: &[u8], c: Cursor, most: usize) -> Option<(u64, Cursor)>
    ensures { result ≡ number_from s.now c (number (min most longest_number) (tokens_at s.now c)) }
{
    let t = next_token(s, c);
    let n = read_digits(&s[t.from..t.to], most)?;
    Some((n, t.next))
}

// A form's text, and then a number in one to `most` digits, of which no more than 19 are read, and the place after it.
pub fn number_after(s: &[u8], c: Cursor, form: &[u8], most: usize) -> Option<(u64, Cursor)>
    ensures { result ≡ number_from s.now c (number_after (tokens form.now) (min most longest_number) (tokens_at s.now c)) }
{
    let next = follow(s, c, form)?;
    read_number(s, next, most)
}

// The place after a form's text and just the number `n`, in one to `most` digits, of which no more than 19 are read.
pub fn follow_number(s: &[u8], c: Cursor, form: &[u8], most: usize, n: usize) -> Option<Cursor>
    ensures { result ≡ place_after s.now c (follow_number (tokens form.now) (min most longest_number) n (tokens_at s.now c)) }
{
    let (k, next) = number_after(s, c, form, most)?;
    (k as usize == n).then_some(next)
}
