// Runs the entries on sample texts, which stand in the files that the arguments name: for each file its name, what the programs `shareout`,
// `strict`, `exact` and `judge` print for its text, and what they print where the buffer is one byte shorter than the text that they write.
#![tactic(auto)]

use printing::LONGEST;
use reply::reply;
use sheet::Sheet;
use sheet::refusal::{Refusal, numbered};
use std::fs::{File, Files};
use std::io::Read;
use std::{env, io};

// Room for a text that is seen to be too long.
const ROOM: usize = Sheet::LONGEST_TEXT + 1;

fn main(rt: HostRuntime) -> io::Result<()> {
    for path in env::args(&rt)?.skip(1) {
        show_file(&rt, path.as_str())?;
    }
    Ok(())
}

// The file of this name; where it cannot be opened, why, on standard error.
fn show_file(rt: &(impl Files + Print + Eprint), path: &str) -> io::Result<()> {
    match File::open(rt, path) {
        Ok(mut file) => {
            println!(rt; "{path}")?;
            show_content(rt, &mut file)
        }
        Err(error) => eprintln!(rt; "{path}: {error}"),
    }
}

// The text of a file, up to one byte more than the longest text.
fn show_content(rt: &impl Print, file: &mut impl Read) -> io::Result<()> {
    let mut text = [0u8; ROOM];
    let got = input::read_full(file, &mut text)?;
    show_answers(rt, &text[..got])
}

// What each program prints for a text, behind the program's name.
fn show_answers(rt: &impl Print, text: &[u8]) -> io::Result<()> {
    print(rt, b"shareout: ")?;
    show(rt, sheet_to_division::share_out_standard, text)?;
    print(rt, b"strict: ")?;
    show(rt, sheet_to_strict::write_strict, text)?;
    print(rt, b"exact: ")?;
    show(rt, sheet_to_exact::show_exact, text)?;
    print(rt, b"judge: ")?;
    show(rt, sheet_to_judgement::judge_division, text)
}

// What the program of an entry prints for a text.
fn show<E: Fn(&[u8], &mut [u8]) -> Result<usize, Refusal>>(
    rt: &impl Print,
    entry: E,
    text: &[u8],
) -> io::Result<()>
    requires { E.IsAlwaysCallable entry }
{
    let mut buffer = [0u8; LONGEST];
    let answer = entry(text, &mut buffer);
    let length = reply(numbered(answer), &mut buffer);
    print(rt, &buffer[..length])?;
    match answer {
        Ok(written) => show_shorter(rt, entry, text, written),
        Err(_) => Ok(()),
    }
}

// What it prints where its buffer is one byte shorter than the text that it writes.
fn show_shorter<E: Fn(&[u8], &mut [u8]) -> Result<usize, Refusal>>(
    rt: &impl Print,
    entry: E,
    text: &[u8],
    written: usize,
) -> io::Result<()>
    requires { E.IsAlwaysCallable entry }
{
    if written == 0 {
        return Ok(());
    }
    let shorter = (written - 1).min(LONGEST);
    print!(rt; "in {shorter} bytes: ")?;
    let mut buffer = [0u8; LONGEST];
    let answer = entry(text, &mut buffer[..shorter]);
    let mut line = [0u8; LONGEST];
    let length = reply(numbered(answer), &mut line);
    print(rt, &line[..length])
}

fn print(rt: &impl Print, bytes: &[u8]) -> io::Result<()> {
    rt.write_all(bytes)
}
