//! The tables of a file, of a locale's file in a folder, those that are installed, or those in the
//! program.

use crate::Failure;
use crate::english::ENGLISH;
use crate::streams::report_error;
use std::alloc::AllocError;
use std::io::{self, ErrorKind};
use std::{env, fs};

/// Tables, and the path of their file; none where they are those in the program.
#[derive(Drop)]
pub(crate) struct ReadTables {
    pub(crate) path: Option<String>,
    pub(crate) bytes: Vec<u8>,
}

/// Why a file wasn't read; it is reported.
fn failure_of(rt: &HostRuntime, path: &str, error: io::Error) -> Failure {
    match error.kind() {
        ErrorKind::OutOfMemory => Failure::OutOfMemory,
        _ => {
            report_error(rt, path, Some(error));
            Failure::Reported
        }
    }
}

/// The path of the tables of a locale in a folder: the file that has the locale's name.
fn path_in(rt: &HostRuntime, folder: &str, locale: &str) -> Result<String, AllocError> {
    let folder = folder.strip_suffix('/').unwrap_or(folder);
    format!(in rt.alloc(); "{folder}/{locale}.json")
}

/// The tables of a locale in a folder.
fn read_in_folder(rt: &HostRuntime, folder: &str, locale: &str) -> Result<ReadTables, Failure> {
    let path = path_in(rt, folder, locale)?;
    match fs::read(rt, &path) {
        Ok(bytes) => Ok(ReadTables {
            path: Some(path),
            bytes,
        }),
        Err(error) => Err(failure_of(rt, &path, error)),
    }
}

/// The folder of the tables that are installed with the program; none where it isn't installed.
fn installed_folder(rt: &HostRuntime) -> Result<Option<String>, AllocError> {
    let Ok(program) = env::current_exe(rt) else {
        return Ok(None);
    };
    match program.as_str().strip_suffix("/bin/locnum") {
        Some(prefix) => Ok(Some(format!(in rt.alloc(); "{prefix}/share/talmuiga/tables")?)),
        None => Ok(None),
    }
}

/// The installed tables of a locale; none where there are none.
fn read_installed(rt: &HostRuntime, locale: &str) -> Result<Option<ReadTables>, Failure> {
    let Some(folder) = installed_folder(rt)? else {
        return Ok(None);
    };
    let path = path_in(rt, &folder, locale)?;
    match fs::read(rt, &path) {
        Ok(bytes) => Ok(Some(ReadTables {
            path: Some(path),
            bytes,
        })),
        Err(error) => match error.kind() {
            ErrorKind::NotFound => Ok(None),
            _ => Err(failure_of(rt, &path, error)),
        },
    }
}

/// The tables in the program.
fn english(rt: &HostRuntime) -> Result<ReadTables, Failure> {
    Ok(ReadTables {
        path: None,
        bytes: Vec::from_slice(rt.alloc(), ENGLISH.as_bytes())?,
    })
}

/// The tables of a file or of a locale's file in a folder; without a path those that are installed,
/// or else those in the program.
pub(crate) fn read_tables(
    rt: &HostRuntime,
    path: Option<&str>,
    locale: &str,
) -> Result<ReadTables, Failure> {
    let Some(path) = path else {
        return match read_installed(rt, locale)? {
            Some(tables) => Ok(tables),
            None => english(rt),
        };
    };
    match fs::read(rt, path) {
        Ok(bytes) => Ok(ReadTables {
            path: Some(String::from_str(rt.alloc(), path)?),
            bytes,
        }),
        Err(error) => match error.kind() {
            ErrorKind::IsADirectory => read_in_folder(rt, path, locale),
            _ => Err(failure_of(rt, path, error)),
        },
    }
}
