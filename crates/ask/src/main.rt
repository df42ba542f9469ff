// The program behind ./ask: reads standard input to its end, and answers each line on standard output.
#![tactic(auto)]

mod calls;
mod questions;

use asking::lists::Trouble;
use asking::printing;
use asking::printing::Written;
use asking::words::Words;
use questions::Question;
use std::alloc::Global;
use std::io;
use std::io::{BufRead, BufReader, ErrorKind, Read, Write};
use std::process::ExitCode;
use thiserror::Error;

// The longest line that is answered.
const LONGEST: usize = 65535;

// What ends a run before the input does.
#[derive(Clone, Copy, Debug, Error)]
enum Failure {
    #[error("standard input cannot be read")]
    Unread,
    #[error("standard output cannot be written")]
    Unwritten(Written),
    #[error("out of memory")]
    Memory,
}

// How a part of the input ended.
#[derive(Clone, Copy)]
enum End {
    Newline,
    Input,
    Room,
}

// Reads on into an empty buffer: to a newline, which is not kept, to the end of the input, or until there is a byte more than may be answered.
fn read_part<R: BufRead>(input: &mut R, part: &mut Vec<u8>) -> io::Result<End> {
    let most = LONGEST as u64 + 1;
    input.by_ref().take(most).read_until(b'\n', part)?;
    if part.last() == Some(&b'\n') {
        part.pop();
        return Ok(End::Newline);
    }
    if part.len() > LONGEST {
        return Ok(End::Room);
    }
    Ok(End::Input)
}

// Passes over the rest of a line that is too long. Nothing says that it ends, so it has as many parts as no run uses up.
fn skip_rest<R: BufRead>(alloc: Global, input: &mut R) -> io::Result<End> {
    let mut part = Vec::new(alloc);
    for _ in 0..u64::MAX {
        part.clear();
        let end = read_part(input, &mut part)?;
        if !matches!(end, End::Room) {
            return Ok(end);
        }
    }
    Ok(End::Input)
}

// Reads the next line into an empty buffer, and answers how it ended. Of a line that is too long one byte more is kept than may be answered. A
// last line without its newline is a line like any other.
fn read_line<R: BufRead>(alloc: Global, input: &mut R, line: &mut Vec<u8>) -> io::Result<End> {
    match read_part(input, line)? {
        End::Room => skip_rest(alloc, input),
        end => Ok(end),
    }
}

// Why no line could be read: the input fails, or there is no memory for it. No `From`: an error of writing is another failure.
fn unread(error: io::Error) -> Failure {
    match error.kind() {
        ErrorKind::OutOfMemory => Failure::Memory,
        _ => Failure::Unread,
    }
}

// The answer to a line, with its newline.
fn answer(alloc: Global, line: &[u8]) -> io::Result<Vec<u8>> {
    let mut out = Vec::new(alloc);
    if line.len() > LONGEST {
        writeln!(out, "? a line of more than {LONGEST} bytes")?;
        return Ok(out);
    }
    let mut words = Words::of(line);
    match Question::read(alloc, &mut words) {
        Ok(question) => question.answer(&mut out)?,
        Err(Trouble::Word(fault)) => write!(out, "? word {}: {fault}", words.asked)?,
        Err(Trouble::Memory(error)) => return Err(error.into()),
    }
    writeln!(out)?;
    Ok(out)
}

// Answers one line, or at the end of the input none, and says whether there may be more. What ended without a newline was the last.
fn answer_next<R: Print, I: BufRead>(
    rt: &R,
    alloc: Global,
    input: &mut I,
) -> Result<bool, Failure> {
    let mut line = Vec::new(alloc);
    let end = read_line(alloc, input, &mut line).map_err(unread)?;
    let goes_on = matches!(end, End::Newline);
    if line.is_empty() && !goes_on {
        return Ok(false);
    }
    // An answer is made in memory, so nothing else can fail there.
    let answer = answer(alloc, &line).map_err(|_| Failure::Memory)?;
    match Written::of(rt.write_all(&answer)) {
        Written::Whole => Ok(goes_on),
        last => Err(Failure::Unwritten(last)),
    }
}

// A proved loop has to end, and nothing says that the input does. So the loop counts its turns, up to a number that no run uses up.
fn run<R: Print, I: Read + Drop>(rt: &R, alloc: Global, input: I) -> Result<(), Failure> {
    let mut input = BufReader::with_capacity(alloc, 65536, input).map_err(unread)?;
    for _ in 0..u64::MAX {
        if !answer_next(rt, alloc, &mut input)? {
            return Ok(());
        }
    }
    Err(Failure::Unread)
}

// What the status is made of. Whoever calls the program learns of a failure from standard error alone, and of a closed pipe not at all.
fn tell<R: Eprint>(rt: &R, outcome: Result<(), Failure>) -> Written {
    match outcome {
        Ok(()) => Written::Whole,
        Err(Failure::Unwritten(Written::Closed)) => Written::Closed,
        Err(failure) => {
            let _ = eprintln!(rt; "ask: {failure}");
            Written::Failed
        }
    }
}

fn main(rt: HostRuntime) -> ExitCode {
    printing::status(tell(&rt, run(&rt, rt.alloc(), rt.stdin())))
}

#[cfg(test)]
mod tests {
    use super::*;
    use std::test::Fail;

    #[test]
    fn answers_lines(rt: HostRuntime) -> Result<(), Fail> {
        let lines = [
            ("address 9 1 3 4294967295", "0 3\n"),
            ("interleave_u8 9 1 3 ABCDEFGHI 255*2", "0 AEFDHIGBC 0,0\n"),
            (
                "interleave_i16 4 1 2 -5,7,32767,-32768 0*1",
                "0 -5,-32768,32767,7 0\n",
            ),
            ("addresses 4 1 2 65535*6", "0 0,3,2,1,65535,65535\n"),
            ("turbo_row 41", "9 0 0\n"),
            ("accept 40 3", "? word 4: too few words\n"),
        ];
        for (line, want) in lines {
            let answered = answer(rt.alloc(), line.as_bytes())?;
            assert_eq!(rt; answered.as_slice(), want.as_bytes(), "at {line}");
        }
        Ok(())
    }
}
