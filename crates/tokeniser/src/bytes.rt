// What a byte of a text is.
ghost use Rattle.std.specs.Prelude.{◌≡◌, eqb};
ghost use Rattle.tokens.specs.Lines.{semicolon};
ghost use Rattle.tokens.specs.Tokens.{is_word_byte};
ghost use Rattle.tokens.specs.TokensAfter.{is_delimiter, counts_for_nothing};

// Whether the byte is a token by itself.
pub(crate) fn is_delimiter(b: u8) -> bool
    ensures { result ≡ is_delimiter b }
{
    matches!(b, b'(' | b')' | b'\n')
}

// Whether the byte belongs to a word.
pub(crate) fn is_word_byte(b: u8) -> bool
    ensures { result ≡ is_word_byte b }
{
    !(b == b' ' || b == b';' || is_delimiter(b))
}

// Whether a remark begins with this byte.
pub(crate) fn begins_remark(first: u8) -> bool
    ensures { result ≡ eqb first semicolon }
{
    first == b';'
}

// Whether the byte counts for nothing, on a line that has begun with a token, or not: a space, one that begins a remark, the end of a
// blank line.
pub(crate) fn counts_for_nothing(begun: bool, byte: u8) -> bool
    ensures { result ≡ counts_for_nothing begun byte }
{
    byte == b' ' || byte == b';' || (!begun && byte == b'\n')
}
