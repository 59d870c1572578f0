// A writer that fills a lent buffer from its front, token by token. What finds no room is left out.
#![tactic(auto)]

ghost use Rattle.std.specs.Prelude.{◌≡◌, [], ◌∷◌, ◌++◌, length, take};
ghost use Rattle.text.specs.Decimal.{decimal, signed, spaced_number, spaced_numbers};
ghost use Rattle.sheet.specs.Answers.{map_answer, after};
ghost use Rattle.sheet.specs.Refusals.{answer_of};
ghost use Rattle.writing.specs.Fields.{group};
ghost use Rattle.writing.specs.Filled.{filling, filled};
ghost use Rattle.writing.specs.Output.{output, with_byte, with_bytes};
ghost use Rattle.writing.specs.WithText.{Writes};

use sheet::refusal::Refusal;

// A lent buffer, and the place of the byte that comes next.
#[derive(Drop)]
pub struct Writer<'a> {
    pub buffer: &'a mut [u8],
    pub at: usize,
}

impl<'a> Writer<'a> {
    // A writer from the front of a buffer.
    pub fn new(buffer: &'a mut [u8]) -> Writer<'a>
        ensures buffer { result.buffer ≡ buffer.entry }
        ensures place { result.at ≡ 0 }
    {
        Writer { buffer, at: 0 }
    }

    // The bytes that are written, from the front of the buffer on.
    pub fn written(&self) -> &[u8]
        ensures { result.now ≡ take self.now.at self.now.buffer.now }
    {
        let last = self.at.min(self.buffer.len());
        &self.buffer[..last]
    }

    // One byte, where there is room.
    pub fn byte(&mut self, byte: u8)
        ensures { Writes self.old (byte ∷ []) self.new }
    {
        self.at = put_byte(self.buffer, self.at, byte);
    }

    // Bytes that stand in another buffer: a writer of their own keeps the place, which is stored once.
    pub fn bytes(&mut self, text: &[u8])
        ensures { Writes self.old text.now self.new }
    {
        let mut writer = Writer {
            buffer: &mut *self.buffer,
            at: self.at,
        };
        for byte in text {
            writer.byte(*byte);
        }
        self.at = writer.at;
    }

    // A number in decimal digits.
    pub fn number(&mut self, n: u64)
        ensures { Writes self.old (decimal n) self.new }
    {
        self.at = put_digits(self.buffer, self.at, n);
    }

    // A whole number in decimal digits, with a minus sign where it is below zero.
    pub fn signed(&mut self, n: i64)
        ensures { Writes self.old (signed n) self.new }
    {
        if n < 0 {
            self.byte(b'-');
        }
        self.number(n.unsigned_abs());
    }

    // A number behind a space.
    pub fn spaced_number(&mut self, n: u64)
        ensures { Writes self.old (spaced_number n) self.new }
    {
        self.byte(b' ');
        self.number(n);
    }

    // A text and a number behind it.
    pub fn field(&mut self, text: &[u8], n: u64)
        ensures { Writes self.old (text.now ++ decimal n) self.new }
    {
        self.bytes(text);
        self.number(n);
    }

    // Numbers, each behind a space.
    pub fn spaced(&mut self, numbers: &[u8])
        ensures { Writes self.old (spaced_numbers numbers.now) self.new }
    {
        for n in numbers {
            self.spaced_number(u64::from(*n));
        }
    }

    // Numbers in brackets.
    pub fn group(&mut self, numbers: &[u8])
        ensures { Writes self.old (group numbers.now) self.new }
    {
        match numbers {
            [] => self.bytes(b"()"),
            [first, rest @ ..] => {
                self.field(b"(", u64::from(*first));
                self.spaced(rest);
                self.byte(b')');
            }
        }
    }
}

// One byte at a place of a buffer, where there is room; the place of the byte that comes next.
fn put_byte(buffer: &mut [u8], at: usize, byte: u8) -> usize
    ensures { output buffer.new result ≡ with_byte (output buffer.old at) byte }
{
    if at < buffer.len() {
        buffer[at] = byte;
        at + 1
    } else {
        at
    }
}

// A number in decimal digits, those of the tens and then the last one; the place of the byte that comes next.
fn put_digits(buffer: &mut [u8], at: usize, n: u64) -> usize
    ensures { output buffer.new result ≡ with_bytes (output buffer.old at) (decimal n) }
{
    if n < 10 {
        return put_byte(buffer, at, b'0' + n as u8);
    }
    let last = put_digits(buffer, at, n / 10);
    put_byte(buffer, last, b'0' + (n % 10) as u8)
}

// A text from the front of a buffer; refused with 10 where the buffer is shorter than the text, and then the buffer keeps all its bytes.
pub fn fill(text: &[u8], buffer: &mut [u8]) -> Result<usize, Refusal>
    ensures answer { answer_of result ≡ map_answer length (filling (length buffer.old) text.now) }
    ensures buffer { buffer.new ≡ after filled (filling (length buffer.old) text.now) buffer.old }
{
    if buffer.len() < text.len() {
        return Err(Refusal::BufferTooShort);
    }
    let mut writer = Writer::new(buffer);
    writer.bytes(text);
    Ok(text.len())
}
