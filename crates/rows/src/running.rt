//! The run of a program of rows.

use crate::asking::{Calls, Outcome, asked, reported};
use crate::counting::{Count, count_row};
use crate::documents::{Document, Documents};
use crate::reading::Row;
use std::alloc::{AllocError, Global};
use std::io::{self, ErrorKind};
use std::{env, fs, str};

/// The arguments of the program, without its name.
fn arguments_once(rt: &HostRuntime) -> io::Result<Vec<String>> {
    let mut arguments = Vec::new(rt.alloc());
    for argument in env::args(rt)?.skip(1) {
        arguments.push(argument)?;
    }
    Ok(arguments)
}

/// The same, once more where memory ran out.
fn arguments(rt: &HostRuntime) -> io::Result<Vec<String>> {
    match arguments_once(rt) {
        Ok(arguments) => Ok(arguments),
        Err(_) => arguments_once(rt),
    }
}

/// The name of a path without its folders.
fn name_of(path: &str) -> &str {
    match path.rsplit_once('/') {
        Some((_, name)) => name,
        None => path,
    }
}

/// The files of these paths.
fn documents_once(rt: &HostRuntime, paths: &[String]) -> io::Result<Documents> {
    let mut documents = Vec::new(rt.alloc());
    for path in paths {
        let document = Document {
            name: String::from_str(rt.alloc(), name_of(path.as_str()))?,
            bytes: fs::read(rt, path.as_str())?,
        };
        documents.push(document)?;
    }
    Ok(Documents { documents })
}

/// The same, once more where memory ran out.
fn documents(rt: &HostRuntime, paths: &[String]) -> io::Result<Documents> {
    match documents_once(rt, paths) {
        Err(error) if error.kind() == ErrorKind::OutOfMemory => documents_once(rt, paths),
        documents => documents,
    }
}

/// Prints what a row that isn't right answers. The error is that of the output.
fn print_wrong(
    rt: &HostRuntime,
    position: (&str, usize),
    line: &str,
    outcome: &Outcome,
) -> io::Result<()> {
    let said = match reported(rt.alloc(), outcome) {
        Ok(said) => said,
        Err(_) => reported(rt.alloc(), outcome)?,
    };
    match said {
        Some(said) => println!(rt; "{}:{}: {line}\n  answers {said}", position.0, position.1),
        None => Ok(()),
    }
}

/// Reads a row, once more where memory ran out.
fn row_of(alloc: Global, line: &str) -> Result<Option<Row>, AllocError> {
    match Row::read(alloc, line) {
        Ok(row) => Ok(row),
        Err(_) => Row::read(alloc, line),
    }
}

/// Counts a row, once more where memory ran out.
fn count(alloc: Global, counts: &mut Vec<Count>, call: &str) -> Result<(), AllocError> {
    match count_row(alloc, counts, call) {
        Ok(()) => Ok(()),
        Err(_) => count_row(alloc, counts, call),
    }
}

/// Tries the row of a line, and counts it.
fn try_line(
    rt: &HostRuntime,
    calls: &impl Calls,
    documents: &Documents,
    position: (&str, usize),
    line: &str,
    counts: &mut Vec<Count>,
) -> io::Result<()> {
    match row_of(rt.alloc(), line)? {
        Some(row) => {
            let outcome = asked(rt.alloc(), calls, documents, &row);
            print_wrong(rt, position, line, &outcome)?;
            Ok(count(rt.alloc(), counts, row.call.as_str())?)
        }
        None => println!(rt; "{}:{}: {line}\n  isn't a row", position.0, position.1),
    }
}

/// Tries the rows of a file, and prints how many of each call there were.
fn try_rows(
    rt: &HostRuntime,
    calls: &impl Calls,
    documents: &Documents,
    name: &str,
    text: &str,
) -> io::Result<()> {
    let mut counts = Vec::new(rt.alloc());
    for (index, line) in text.lines().enumerate() {
        if !line.is_empty() && !line.starts_with('#') {
            let position = (name, index.saturating_add(1));
            try_line(rt, calls, documents, position, line, &mut counts)?;
        }
    }
    for count in &counts {
        println!(rt; "{name}: {} {}", count.call, count.rows)?;
    }
    Ok(())
}

/// Tries the rows of each file whose name ends in `.rows`.
fn try_documents(rt: &HostRuntime, calls: &impl Calls, documents: &Documents) -> io::Result<()> {
    for document in &documents.documents {
        if document.name.ends_with(".rows") {
            match str::from_utf8(&document.bytes) {
                Ok(text) => try_rows(rt, calls, documents, document.name.as_str(), text)?,
                Err(_) => println!(rt; "{}: isn't UTF-8", document.name)?,
            }
        }
    }
    Ok(())
}

/// A program of rows. It reads the files that its arguments name. Of those whose name ends in
/// `.rows` it tries each line that is neither empty nor a comment, which begins with `#`. It prints
/// each row whose answer isn't the one that is wanted, with the answer below it, and at the end of
/// each file how many rows of each call it tried. The other files are what rows name.
pub fn run(rt: &HostRuntime, calls: &impl Calls) -> io::Result<()> {
    let documents = documents(rt, &arguments(rt)?)?;
    try_documents(rt, calls, &documents)
}
