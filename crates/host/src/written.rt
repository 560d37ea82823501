//! A file that is written whole or not at all, and never over another.

use crate::failure::{Failure, in_words};
use std::fs::File;
use std::io::{ErrorKind, Write};
use std::os::unix::fs::MetadataExt;
use std::path::{Path, PathBuf};
use std::{fs, io, process};

/// That nothing stands at a path yet, and that it is not that of what is read. Looked at before the work is done: `write`
/// looks again, by the system's own rule.
pub fn check_free(rt: &HostRuntime, word: &str, path: &str, input: &str) -> Result<(), Failure> {
    if path == "-" {
        return Err(Failure::of_usage(format!(in rt.alloc();
            "{word} writes to a path, and - is none"
        )));
    }
    // A link that leads nowhere is something too.
    match fs::symlink_metadata(rt, path) {
        Err(why) if why.kind() == ErrorKind::NotFound => Ok(()),
        Err(why) => Err(unwritable(rt, path, &why)),
        Ok(_) => {
            if is_same(rt, path, input) {
                return Err(taken(rt, path, "it is the file that is read"));
            }
            Err(taken(rt, path, THERE))
        }
    }
}

const THERE: &str = "it is there already";

// Whether two paths lead to one file, by whatever names.
fn is_same(rt: &HostRuntime, path: &str, other: &str) -> bool {
    if other == "-" {
        return false;
    }
    match (fs::metadata(rt, path), fs::metadata(rt, other)) {
        (Ok(one), Ok(two)) => one.dev() == two.dev() && one.ino() == two.ino(),
        _ => false,
    }
}

fn taken(rt: &HostRuntime, path: &str, why: &str) -> Failure {
    Failure::of_file(format!(in rt.alloc();
        "{path} is not written: {why}, and nothing is written over"
    ))
}

fn unwritable(rt: &HostRuntime, path: &str, why: &io::Error) -> Failure {
    match known(why.kind()) {
        Some(told) => unwritable_since(rt, path, told),
        None => match in_words(rt.alloc(), why) {
            Ok(told) => unwritable_since(rt, path, told.as_str()),
            Err(_) => Failure::Memory,
        },
    }
}

fn unwritable_since(rt: &HostRuntime, path: &str, told: &str) -> Failure {
    Failure::of_file(format!(in rt.alloc(); "{path} can't be written: {told}"))
}

// What an error of the system means for a file that is to be written.
fn known(kind: ErrorKind) -> Option<&'static str> {
    match kind {
        ErrorKind::NotFound | ErrorKind::NotADirectory => Some("there is no such folder"),
        ErrorKind::PermissionDenied => Some("there is no permission to write there"),
        ErrorKind::FileTooLarge => Some("no file may be so long there"),
        ErrorKind::Unsupported => {
            Some(
                "its file system has no hard links, by which a file gets its name once it is whole",
            )
        }
        _ => None,
    }
}

/// Writes a new file.
pub fn write(rt: &HostRuntime, path: &str, bytes: &[u8]) -> Result<(), Failure> {
    match write_unnamed(rt, path, bytes) {
        Ok(()) => Ok(()),
        Err(why) if why.kind() == ErrorKind::AlreadyExists => Err(taken(rt, path, THERE)),
        Err(why) => Err(unwritable(rt, path, &why)),
    }
}

// A file without its name as yet, which goes when it has that. A run that is killed leaves it behind; --help says by which
// name.
#[derive(Drop)]
struct Unnamed {
    path: PathBuf,
    file: File,
}

// How many names are tried where an earlier run of the same process number was killed and left its file.
const TRIES: u32 = 100;

// Beside a path, since a file can't be given a name on another file system.
fn beside(rt: &HostRuntime, path: &str) -> io::Result<Unnamed> {
    let path = Path::new(path);
    let folder = path.parent().unwrap_or(Path::new(""));
    let process = process::id(rt.process());
    for number in 0..TRIES {
        let name = format!(in rt.alloc(); ".vindaskot-{process}-{number}")?;
        let path = folder.join(rt.alloc(), name.as_str())?;
        match File::create_new(rt, path.as_path()) {
            Ok(file) => return Ok(Unnamed { path, file }),
            Err(why) => {
                if why.kind() != ErrorKind::AlreadyExists {
                    return Err(why);
                }
            }
        }
    }
    Err(io::Error::new(
        ErrorKind::Other,
        "killed runs have left too many files beside it",
    ))
}

fn write_unnamed(rt: &HostRuntime, path: &str, bytes: &[u8]) -> io::Result<()> {
    let mut unnamed = beside(rt, path)?;
    let end = name(rt, &mut unnamed, path, bytes);
    // Where it can't be removed there is nothing better to do.
    let _ = fs::remove_file(rt, unnamed.path.as_path());
    end
}

// A second name is refused where anything has it, and the file is whole by then: so its reader never sees a part.
fn name(rt: &HostRuntime, unnamed: &mut Unnamed, path: &str, bytes: &[u8]) -> io::Result<()> {
    unnamed.file.write_all(bytes)?;
    unnamed.file.sync_all()?;
    match fs::hard_link(rt, unnamed.path.as_path(), path) {
        // There was permission for the first name.
        Err(why) if why.kind() == ErrorKind::PermissionDenied => {
            Err(io::Error::from(ErrorKind::Unsupported))
        }
        end => end,
    }
}
