// What becomes of an answer: the text that a program writes, and what a caller by C's calling convention is told.
#![tactic(auto)]

ghost use Rattle.std.specs.Prelude.{◌≡◌};
ghost use Rattle.sheet.specs.Answers.{number_of};
ghost use Rattle.sheet.specs.Refusals.{numbered_answer};
ghost use Rattle.writing.specs.Output.{output};
ghost use Rattle.writing.specs.WithText.{Writes};
ghost use Rattle.reply.specs.Replies.{refusal_line, reply_into, Front};
ghost use Rattle.reply.specs.Stored.{length_answered};

use writing::Writer;

// The line of a refusal, as far as there is room.
fn put_refusal(writer: &mut Writer, number: u8)
    ensures { Writes writer.old (refusal_line number) writer.new }
{
    writer.field(b"(refused ", u64::from(number));
    writer.bytes(b")\n");
}

// What a program writes for an answer about its lent buffer: puts the line of a refusal at the front of the buffer, leaves the buffer
// of a text as it is, and returns the length of the front to write. It takes the number of a refusal, any that a byte holds.
pub fn reply(answer: Result<usize, u8>, buffer: &mut [u8]) -> usize
    ensures front { output buffer.new result ≡ reply_into (numbered_answer answer) buffer.old }
    ensures within { Front result buffer.new }
{
    match answer {
        Ok(length) => length.min(buffer.len()),
        Err(number) => {
            let mut writer = Writer::new(buffer);
            put_refusal(&mut writer, number);
            writer.at
        }
    }
}

// What a caller by C's calling convention is told: stores the length of a text and returns 0, or returns the number of the refusal and
// leaves the length as it is.
pub fn store_length(answer: Result<usize, u8>, length: &mut usize) -> u8
    ensures number { result ≡ number_of (numbered_answer answer) }
    ensures length { length.new ≡ length_answered (numbered_answer answer) length.old }
{
    match answer {
        Ok(written) => {
            *length = written;
            0
        }
        Err(number) => number,
    }
}
