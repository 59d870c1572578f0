// The program: a sheet with a division behind it on standard input, the margins of its yards or one line such as `(refused 13)` on standard output.
#![tactic(auto)]

use sheet::Sheet;
use sheet::refusal::numbered;
use sheet_to_judgement::accepted;
use std::io;

// One byte more than the longest text, so that a longer one is seen to be longer.
const ROOM: usize = Sheet::LONGEST_TEXT + 1;

fn main(rt: HostRuntime) -> io::Result<()> {
    let mut text = [0u8; ROOM];
    let got = input::read_full(&mut rt.stdin(), &mut text)?;
    let mut buffer = [0u8; accepted::LONGEST];
    let answer = sheet_to_judgement::judge_division(&text[..got], &mut buffer);
    let length = reply::reply(numbered(answer), &mut buffer);
    rt.write_all(&buffer[..length])
}
