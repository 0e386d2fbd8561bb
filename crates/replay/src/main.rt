// Answers the questions in the files whose names are its arguments: texts one behind the other, a byte 0 behind each. It prints the answers in that order.
#![tactic(auto)]

ghost use Rattle.std.specs.Prelude.{◌≡◌, ◌≢◌, ℕ, ◌<◌, ◌≤◌, length, slice_index};

use input::read_from;
use std::env::{Env, FillError};
use std::fmt::InlineText;
use std::rt::Files;
use std::{fs, io};
use text::respond::respond;

// How long the first text is: up to the next byte 0, or else to the end.
fn end_of(texts: &[u8]) -> usize
    ensures within { result ≤ length texts.now }
    ensures before { (k : ℕ) → k < result → slice_index texts.now k ≢ 0 }
    ensures found { result < length texts.now → slice_index texts.now result ≡ 0 }
{
    texts
        .iter()
        .position(|byte| *byte == 0)
        .unwrap_or(texts.len())
}

// The answer to one text.
fn one(rt: &impl Print, text: &[u8]) -> io::Result<()> {
    let mut lines = [0u8; 192];
    let k = respond(text, &mut lines);
    rt.write_all(&lines[..k])
}

// The answers to the texts of one file.
fn all(rt: &impl Print, texts: &[u8]) -> io::Result<()> {
    let mut rest = texts;
    while !rest.is_empty() {
        let (text, after) = rest.split_at(end_of(rest));
        one(rt, text)?;
        rest = match after {
            [_, behind @ ..] => behind,
            [] => after,
        };
    }
    Ok(())
}

// An error's words, without the system's number behind them.
fn words(error: &str) -> &str {
    match error.split_once(" (os error ") {
        Some((words, _)) => words,
        None => error,
    }
}

// Says on standard error that the file of this name could not be opened, and why.
fn fail(rt: &impl Eprint, path: &str, error: io::Error) -> io::Result<()> {
    let text: InlineText<256> = InlineText::of(error);
    let words = words(text.as_str());
    eprintln!(rt; "{path}: {words}")
}

// The answers to the texts of the file of this name. At most 65,536 bytes of it are read, and fewer where a read fails.
fn file(rt: &(impl Files + Print + Eprint), path: &str) -> io::Result<()> {
    let mut file = match fs::open(rt, path) {
        Ok(file) => file,
        Err(error) => return fail(rt, path, error),
    };
    let mut texts = [0u8; 65536];
    let n = read_from(&mut file, &mut texts).bytes;
    all(rt, &texts[..n])
}

// The same, of a name in bytes; one that is no text names no file here.
fn named(rt: &(impl Files + Print + Eprint), name: &[u8]) -> io::Result<()> {
    match str::from_utf8(name) {
        Ok(path) => file(rt, path),
        Err(_) => eprintln!(rt;
            "replay: the name of a file is not UTF-8, and the file is passed over"
        ),
    }
}

// A name of more than 4,096 bytes is passed over.
fn main(rt: HostRuntime) -> io::Result<()> {
    let mut name = [0u8; 4096];
    for i in 1..usize::MAX {
        match rt.arg(i, &mut name) {
            Ok(n) => named(&rt, &name[..n])?,
            Err(FillError::TooLong) => {}
            Err(FillError::NotPresent) => return Ok(()),
        }
    }
    Ok(())
}
