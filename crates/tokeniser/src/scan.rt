// Where tokens, and bytes that count for nothing, end.
ghost use Rattle.std.specs.Prelude.{◌+◌, ◌≤◌, ◌<◌, ◌≡◌, false, length, drop};
ghost use Rattle.tokeniser.specs.NextToken.{blanks};
ghost use Rattle.tokeniser.specs.internal.Scanned.{remark_bytes, word_bytes, token_bytes};

use crate::bytes::{begins_remark, counts_for_nothing, is_delimiter, is_word_byte};

// How many bytes of a remark stand at the front of a text: those before its first line feed.
fn remark_bytes(s: &[u8]) -> usize
    ensures { result ≡ remark_bytes s.now }
{
    s.iter().take_while(|b| **b != b'\n').count()
}

// The first place from `at` on where a token begins, or the end of the text.
pub(crate) fn token_start(s: &[u8], at: usize, begun: bool) -> usize
    requires { at ≤ length s.now }
    ensures { result ≡ at + blanks begun false (drop at s.now) }
{
    let mut i = at;
    while i < s.len() && counts_for_nothing(begun, s[i]) {
        i = if begins_remark(s[i]) {
            i + 1 + remark_bytes(&s[i + 1..])
        } else {
            i + 1
        };
    }
    i
}

// How many bytes of a word stand at the front of a text.
fn word_bytes(s: &[u8]) -> usize
    ensures { result ≡ word_bytes s.now }
{
    s.iter().take_while(|b| is_word_byte(**b)).count()
}

// The end of the token that begins at `from`.
pub(crate) fn token_end(s: &[u8], from: usize) -> usize
    requires { from < length s.now }
    ensures { result ≡ from + token_bytes (drop from s.now) }
{
    if is_delimiter(s[from]) {
        from + 1
    } else {
        from + 1 + word_bytes(&s[from + 1..])
    }
}
