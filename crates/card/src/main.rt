// The card program: reads standard input to its end, and writes a card for each line to standard output.
#![tactic(auto)]

ghost use Rattle.std.specs.Prelude.{◌+◌, ◌≤◌, length, IfOk};
ghost use Rattle.cards.specs.Cards.{room};

use asking::printing;
use asking::printing::Written;
use cards::Line;
use std::io;
use std::io::Read;
use std::process::ExitCode;

// Empties a buffer that may have no room for another card, and answers where the cards in it end. The buffer and that place stay two here and below,
// since `cards::feed` takes them so and the buffer is emptied between its calls.
fn make_room<R: Print>(rt: &R, out: &[u8], end: usize) -> io::Result<usize>
    requires { (end ≤ length out.now) × (room ≤ length out.now) }
    ensures { IfOk result (λ start. start + room ≤ length out.now) }
{
    if out.len() - end >= cards::ROOM {
        return Ok(end);
    }
    rt.write_all(&out[..end])?;
    Ok(0)
}

// Takes a whole piece of the input, and gives the line that has not ended and where the cards end.
fn take<R: Print>(
    rt: &R,
    piece: &[u8],
    unended: Line,
    out: &mut [u8],
    at: usize,
) -> io::Result<(Line, usize)>
    requires { (at ≤ length out.old) × (room ≤ length out.old) }
    ensures { IfOk result (λ progress. progress.1 ≤ length out.old) }
{
    let mut line = unended;
    let mut end = at;
    let mut rest = piece;
    // A `while`: how much of the rest a turn takes is known only after it.
    while !rest.is_empty() {
        let start = make_room(rt, out, end)?;
        let fed = cards::feed(rest, line, out, start);
        line = fed.line;
        end = fed.end;
        rest = &rest[fed.taken..];
    }
    Ok((line, end))
}

// Writes what is left at the end of the input.
fn finish<R: Print>(rt: &R, line: Line, out: &mut [u8], at: usize) -> io::Result<()>
    requires { (at ≤ length out.old) × (room ≤ length out.old) }
{
    let start = make_room(rt, out, at)?;
    let end = cards::finish(line, out, start);
    rt.write_all(&out[..end])
}

// Why not every line has its card, and how the last write went: the input could not be read to its end, or the output not be written.
#[derive(Clone, Copy)]
enum Failure {
    Unread(Written),
    Unwritten(Written),
}

impl Failure {
    fn last_write(self) -> Written {
        match self {
            Failure::Unread(last) | Failure::Unwritten(last) => last,
        }
    }
}

impl From<io::Error> for Failure {
    fn from(error: io::Error) -> Failure {
        Failure::Unwritten(Written::of(Err(error)))
    }
}

// A proved loop has to end, and nothing says that the input does. So it has as many turns as no run uses up.
fn run<R: Print, I: Read>(
    rt: &R,
    input: &mut I,
    piece: &mut [u8],
    out: &mut [u8],
) -> Result<(), Failure>
    requires { room ≤ length out.old }
{
    let mut line = Line::new();
    let mut end = 0;
    for _ in 0..u64::MAX {
        let Ok(size) = input.read(piece) else {
            break;
        };
        if size == 0 {
            return Ok(finish(rt, line, out, end)?);
        }
        (line, end) = take(rt, &piece[..size], line, out, end)?;
    }
    // The input did not come to its end, so nobody knows the rest of the last line, and it gets no card.
    Err(Failure::Unread(Written::of(rt.write_all(&out[..end]))))
}

// Whoever calls the program learns of a failure from standard error alone. Where a pipe was closed nobody is told. No `Display`: two lines may be
// due.
fn tell<R: Eprint>(rt: &R, failure: Failure) {
    let last = failure.last_write();
    if matches!(last, Written::Closed) {
        return;
    }
    if matches!(failure, Failure::Unread(_)) {
        let _ = rt.eprintln("card: standard input cannot be read");
    }
    if !last.is_whole() {
        let _ = rt.eprintln("card: standard output cannot be written");
    }
}

fn main(rt: HostRuntime) -> ExitCode {
    let mut piece = [0u8; 65536];
    let mut out = [0u8; 65536];
    match run(&rt, &mut rt.stdin(), &mut piece, &mut out) {
        Ok(()) => ExitCode::SUCCESS,
        Err(failure) => {
            tell(&rt, failure);
            printing::status(failure.last_write())
        }
    }
}
