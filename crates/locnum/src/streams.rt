//! The standard streams, and what they answered.

use locnum_lines::RunError;
use std::alloc::{AllocError, Global};
use std::io;
use std::io::{ErrorKind, Read, Stderr, Stdin, Stdout, Write};

/// A stream, and the error of its last call, if that failed.
#[derive(Drop)]
pub(crate) struct Watched<S> {
    /// The stream.
    stream: S,
    /// What its last call answered.
    error: Option<io::Error>,
}

impl<S> Watched<S> {
    /// A stream that no call has failed of.
    pub(crate) fn new(stream: S) -> Watched<S> {
        Watched {
            stream,
            error: None,
        }
    }

    /// The stream failed of a call that wasn't made through this.
    pub(crate) fn fail(&mut self, error: io::Error) {
        self.error = Some(error);
    }
}

impl<R: Read> Read for Watched<R> {
    ghost remaining = { λ s. R.remaining s.stream };

    fn read(&mut self, buf: &mut [u8]) -> io::Result<usize> {
        let read = self.stream.read(buf);
        self.error = match &read {
            Ok(_) => None,
            Err(error) => Some(*error),
        };
        read
    }
}

impl<W: Write> Write for Watched<W> {
    ghost contents = { λ s. W.contents s.stream };

    fn write(&mut self, buf: &[u8]) -> io::Result<usize> {
        let written = self.stream.write(buf);
        self.error = match &written {
            Ok(_) => None,
            Err(error) => Some(*error),
        };
        written
    }

    fn flush(&mut self) -> io::Result<()> {
        self.stream.flush()
    }
}

/// The three standard streams of a run.
#[derive(Drop)]
pub(crate) struct Streams {
    /// What is read.
    pub(crate) input: Watched<Stdin>,
    /// What is written.
    pub(crate) output: Watched<Stdout>,
    /// What is noted.
    pub(crate) notes: Watched<Stderr>,
}

/// What an error says, without the system's number.
pub(crate) fn text_of(alloc: Global, error: &io::Error) -> Result<String, AllocError> {
    let shown = format!(in alloc; "{error}")?;
    match shown.as_str().split_once(" (os error") {
        Some((text, _)) => String::from_str(alloc, text),
        None => Ok(shown),
    }
}

/// Reports that a call of a stream failed.
pub(crate) fn report_error(rt: &HostRuntime, stream: &str, error: Option<io::Error>) {
    let _ = match error {
        Some(error) => match text_of(rt.alloc(), &error) {
            Ok(text) => eprintln!(rt; "locnum: {stream}: {text}"),
            Err(_) => rt.eprintln("locnum: out of memory"),
        },
        None => eprintln!(rt; "locnum: {stream}: no byte was taken"),
    };
}

/// Whether an error says that nobody reads any more.
pub(crate) fn is_gone(error: Option<io::Error>) -> bool {
    match error {
        Some(error) => error.kind() == ErrorKind::BrokenPipe,
        None => false,
    }
}

/// The status after a text was written to standard output.
pub(crate) fn status_of_output(rt: &HostRuntime, printed: io::Result<()>) -> u8 {
    match printed {
        Ok(()) => 0,
        Err(error) if is_gone(Some(error)) => 141,
        Err(error) => {
            report_error(rt, "standard output", Some(error));
            1
        }
    }
}

impl Streams {
    /// The streams of the program.
    pub(crate) fn new(rt: &HostRuntime) -> Streams {
        Streams {
            input: Watched::new(rt.stdin()),
            output: Watched::new(rt.stdout()),
            notes: Watched::new(rt.stderr()),
        }
    }

    /// Whether nobody reads the output, or the notes, any more.
    pub(crate) fn is_reader_gone(&self) -> bool {
        is_gone(self.output.error) || is_gone(self.notes.error)
    }

    /// Reports why a run failed; not where nobody reads its output.
    pub(crate) fn report(&self, rt: &HostRuntime, error: RunError) {
        match error {
            RunError::Read => report_error(rt, "standard input", self.input.error),
            RunError::Write if self.is_reader_gone() => {}
            RunError::Write => report_error(rt, "standard output", self.output.error),
            RunError::OutOfMemory => {
                let _ = rt.eprintln("locnum: out of memory");
            }
        }
    }
}
