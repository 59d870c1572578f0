// The program: a sheet on standard input, one of its exact divisions, `(exact none)` or one line such as `(refused 6)` on standard output.
#![tactic(auto)]

use sheet::Sheet;
use sheet::refusal::numbered;
use std::io;

// One byte more than the longest text, so that a longer one is seen to be longer.
const ROOM: usize = Sheet::LONGEST_TEXT + 1;

fn main(rt: HostRuntime) -> io::Result<()> {
    let mut text = [0u8; ROOM];
    let got = input::read_full(&mut rt.stdin(), &mut text)?;
    let mut buffer = [0u8; exact_printing::LONGEST];
    let answer = sheet_to_exact::show_exact(&text[..got], &mut buffer);
    let length = reply::reply(numbered(answer), &mut buffer);
    rt.write_all(&buffer[..length])
}
