// How answers are written: numbers in a row, how a write went, and the status of a program after it.
ghost use Rattle.std.specs.Prelude.{◌≡◌, ◌≢◌, ◌↔◌, IsOk, IfErr, IsTrue};
ghost use Rattle.std.specs.IoError.{error_kind};
ghost use Rattle.std.specs.Process.{exit_status};

use std::fmt::Display;
use std::io::ErrorKind;
use std::process::ExitCode;
use std::{fmt, io};

// Items one after the other, and what stands between them.
#[derive(Clone, Copy)]
pub struct Joined<'a, T>(pub &'a [T], pub &'static str);

impl<'a, T: Display> Display for Joined<'a, T> {
    fn fmt<W: fmt::Write>(&self, f: &mut fmt::Formatter<W>) -> fmt::Result {
        let Joined(items, between) = self;
        let Some((first, others)) = items.split_first() else {
            return Ok(());
        };
        write!(f, "{first}")?;
        for item in others {
            write!(f, "{between}{item}")?;
        }
        Ok(())
    }
}

// How a write went. A pipe that is closed is no failure: whoever reads it has had enough.
#[derive(Clone, Copy, Debug, PartialEq, Eq)]
pub enum Written {
    Whole,
    Closed,
    Failed,
}

impl Written {
    // No `From`: what is promised of each answer would stand twice, here and in the ghost member of the `impl`.
    pub fn of(call: io::Result<()>) -> Written
        ensures whole { IsOk call → result ≡ Written.Whole }
        ensures closed { IfErr call (λ e. error_kind e ≡ ErrorKind.BrokenPipe → result ≡ Written.Closed) }
        ensures failed { IfErr call (λ e. error_kind e ≢ ErrorKind.BrokenPipe → result ≡ Written.Failed) }
    {
        match call {
            Ok(()) => Written::Whole,
            Err(error) => match error.kind() {
                ErrorKind::BrokenPipe => Written::Closed,
                _ => Written::Failed,
            },
        }
    }

    pub fn is_whole(self) -> bool
        ensures { IsTrue result ↔ (self ≡ Written.Whole) }
    {
        self == Written::Whole
    }
}

// A program that met a closed pipe ends as the signal of it would end it: with 128 and its number, 13. A function, and no `From`: it is promised
// under this name.
pub fn status(last: Written) -> ExitCode
    ensures closed { last ≡ Written.Closed → exit_status result ≡ 141 }
    ensures other { last ≢ Written.Closed → exit_status result ≡ 0 }
{
    match last {
        Written::Closed => ExitCode::from(141),
        _ => ExitCode::SUCCESS,
    }
}
