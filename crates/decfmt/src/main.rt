//! `decfmt`: reads lines, and writes each decimal in the form of a locale.
#![tactic(auto)]

use decimal_lines::{Mode, RunError, StartError, parse_words, run};
use std::alloc::{AllocError, AllocFailed};
use std::io::ErrorKind;
use std::process::ExitCode;
use std::{env, fs, io};

const USAGE: &str = "usage: decfmt TABLES LOCALE NU|- plain|short|long [auto|never|always|min2]";

/// Why the program ends with another status than 0.
#[derive(Clone, Copy, Debug)]
enum Failure {
    Streams,
    OutOfMemory,
    Words,
    Tables,
    NoData,
}

impl Failure {
    ghost use Rattle.std.specs.Prelude.{◌≡◌};
    ghost use Rattle.decfmt.specs.Endings.{exit_status_of, message_of};

    fn message(&self) -> &'static str
        ensures { result.now ≡ message_of self.now }
    {
        match self {
            Failure::Streams => "error: input or output failed",
            Failure::OutOfMemory => "error: out of memory",
            Failure::Words => USAGE,
            Failure::Tables => "error: tables refused",
            Failure::NoData => "error: no data",
        }
    }

    // promise: Each ending but the good one has its status.
    // mutations: ending_no_data_with_the_status_of_tables
    fn status(&self) -> u8
        ensures { result ≡ exit_status_of self.now }
    {
        match self {
            Failure::Streams | Failure::OutOfMemory => 1,
            Failure::Words => 2,
            Failure::Tables => 3,
            Failure::NoData => 4,
        }
    }
}

impl From<RunError> for Failure {
    ghost use Rattle.std.specs.Prelude.{◌≡◌, ◌≢◌};
    ghost use Rattle.decimal_lines.specs.declared.running.RunError.TheVariants.{OutOfMemory as NoMemory};
    ghost use Rattle.decfmt.specs.declared.Failure.TheVariants.{Streams, OutOfMemory};

    ghost from_gives = { λ error failure. (error ≡ NoMemory → failure ≡ OutOfMemory)
        × (error ≢ NoMemory → failure ≡ Streams) };

    fn from(error: RunError) -> Failure {
        match error {
            RunError::Read | RunError::Write => Failure::Streams,
            RunError::OutOfMemory => Failure::OutOfMemory,
        }
    }
}

impl From<StartError> for Failure {
    ghost use Rattle.std.specs.Prelude.{◌≡◌};
    ghost use Rattle.decfmt.specs.Endings.{failure_of};

    ghost from_gives = { λ error failure. failure ≡ failure_of error };

    fn from(error: StartError) -> Failure {
        match error {
            StartError::Tables => Failure::Tables,
            StartError::NoData => Failure::NoData,
            StartError::OutOfMemory => Failure::OutOfMemory,
        }
    }
}

impl From<AllocError> for Failure {
    ghost use Rattle.std.specs.Prelude.{◌≡◌};
    ghost use Rattle.decfmt.specs.declared.Failure.TheVariants.{OutOfMemory};

    ghost from_gives = { λ _ failure. failure ≡ OutOfMemory };

    fn from(_error: AllocError) -> Failure {
        Failure::OutOfMemory
    }
}

impl<T: Drop> From<AllocFailed<T>> for Failure {
    ghost use Rattle.std.specs.Prelude.{◌≡◌};
    ghost use Rattle.decfmt.specs.declared.Failure.TheVariants.{OutOfMemory};

    ghost from_gives = { λ _ failure. failure ≡ OutOfMemory };

    fn from(_error: AllocFailed<T>) -> Failure {
        Failure::OutOfMemory
    }
}

/// out of memory, or another failure.
fn unless_memory(error: &io::Error, failure: Failure) -> Failure {
    match error.kind() {
        ErrorKind::OutOfMemory => Failure::OutOfMemory,
        _ => failure,
    }
}

/// The arguments after the program's name.
fn words_given(rt: &HostRuntime) -> Result<Vec<String>, Failure> {
    let given = match env::args(rt) {
        Ok(given) => given,
        Err(error) => return Err(unless_memory(&error, Failure::Words)),
    };
    let mut words = Vec::new(rt.alloc());
    for word in given.skip(1) {
        words.push(word)?;
    }
    Ok(words)
}

/// The bytes of a file.
fn file_at(rt: &HostRuntime, path: &str) -> Result<Vec<u8>, Failure> {
    match fs::read(rt, path) {
        Ok(bytes) => Ok(bytes),
        Err(error) => Err(unless_memory(&error, Failure::Streams)),
    }
}

/// The mode that the arguments ask for; they are judged before the file is read.
fn mode_asked(rt: &HostRuntime, words: &[String]) -> Result<Mode, Failure> {
    let mut texts = Vec::new(rt.alloc());
    for word in words {
        texts.push(word.as_str())?;
    }
    let Some(asked) = parse_words(&texts) else {
        return Err(Failure::Words);
    };
    let file = file_at(rt, asked.path)?;
    Ok(Mode::make(rt.alloc(), &asked, &file)?)
}

/// Formats standard input: in plain English without arguments, and else as they ask.
fn format_lines(rt: &HostRuntime) -> Result<(), Failure> {
    let words = words_given(rt)?;
    let mode = if words.is_empty() {
        Mode::english(rt.alloc())?
    } else {
        mode_asked(rt, &words)?
    };
    run(rt.alloc(), &mode, &mut rt.stdin(), &mut rt.stdout())?;
    Ok(())
}

fn main(rt: HostRuntime) -> ExitCode {
    match format_lines(&rt) {
        Ok(()) => ExitCode::SUCCESS,
        Err(failure) => {
            let _ = rt.eprintln(failure.message());
            ExitCode::from(failure.status())
        }
    }
}
