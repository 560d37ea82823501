//! How the program ends where it does not do what was asked.

ghost use Rattle.std.specs.Prelude.{◌≡◌};
ghost use Rattle.host.specs.Status.{is_unread, failure_status, status_of};
ghost use Rattle.host.specs.StatusMeant.{StatusMeant};

use refusal::Refusal;
use report::Upload;
use std::alloc::{AllocError, Global};
use std::fmt::Display;
use std::io;
use std::io::ErrorKind;
use wording::InWords;

/// A message in a sentence, by the status that it ends with.
#[derive(Drop)]
pub enum Failure {
    /// Refused or not found: 1.
    Refused(String),
    /// A file was written, and something is not in it: 1, whether or not somebody reads what is printed.
    Dropped(String),
    /// The arguments: 2.
    Usage(String),
    /// The file: 2.
    File(String),
    /// Standard output can't be written: 2, but 0 where its reader has gone, since it has read what it wanted.
    Output(io::Error),
    /// There is no memory left: 2.
    Memory,
}

impl From<AllocError> for Failure {
    fn from(_: AllocError) -> Self {
        Failure::Memory
    }
}

/// Only writing gives a bare error, or memory that is out: reading says which file.
impl From<io::Error> for Failure {
    fn from(why: io::Error) -> Self {
        match why.kind() {
            ErrorKind::OutOfMemory => Failure::Memory,
            _ => Failure::Output(why),
        }
    }
}

impl Failure {
    /// What was refused or not found, in words, unless there was no memory for them.
    pub fn of_refusal(words: Result<String, AllocError>) -> Self {
        match words {
            Ok(words) => Failure::Refused(words),
            Err(_) => Failure::Memory,
        }
    }

    /// A refusal of what was read from a path.
    pub fn refused(alloc: Global, path: &str, why: &Refusal) -> Self {
        let why = InWords(why);
        Failure::of_refusal(format!(in alloc; "{path}: {why}"))
    }

    /// What was refused or not found of an upload, with what it was read as: a wrong guess is the first thing to rule out.
    pub fn of_upload<D: Display>(alloc: Global, upload: &Upload<'_>, why: &D) -> Self {
        Failure::of_refusal(format!(in alloc; "{upload}: {why}"))
    }

    /// What is wrong with a file, unless there was no memory for the words.
    pub fn of_file(words: Result<String, AllocError>) -> Self {
        match words {
            Ok(words) => Failure::File(words),
            Err(_) => Failure::Memory,
        }
    }

    /// What is wrong with the arguments, likewise.
    pub fn of_usage(words: Result<String, AllocError>) -> Self {
        match words {
            Ok(words) => Failure::Usage(words),
            Err(_) => Failure::Memory,
        }
    }

    /// That a file can't be read, and why.
    pub fn unreadable(alloc: Global, path: &str, why: &io::Error) -> Self {
        match in_words(alloc, why) {
            Ok(why) => Failure::of_file(format!(in alloc; "{path} can't be read: {why}")),
            Err(_) => Failure::Memory,
        }
    }

    /// Whether the reader of standard output has gone: of a pipe, or of a socket in which it left something unread.
    pub fn is_unread(&self) -> bool
        ensures { result ≡ is_unread self.now }
    {
        match self {
            Failure::Output(why) => matches!(
                why.kind(),
                ErrorKind::BrokenPipe | ErrorKind::ConnectionReset
            ),
            _ => false,
        }
    }

    fn status(&self) -> u8
        ensures { result ≡ failure_status self.now }
    {
        match self {
            Failure::Refused(_) | Failure::Dropped(_) => 1,
            Failure::Output(_) if self.is_unread() => 0,
            Failure::Usage(_) | Failure::File(_) | Failure::Output(_) | Failure::Memory => 2,
        }
    }

    /// Says it on standard error, but for a reader that has gone.
    pub fn tell(&self, rt: &HostRuntime) {
        if self.is_unread() {
            return;
        }
        let _ = match self {
            Failure::Refused(why) | Failure::Dropped(why) | Failure::File(why) => {
                eprintln!(rt; "vindaskot: {why}.")
            }
            Failure::Usage(why) => {
                eprintln!(rt; "vindaskot: {why}. `vindaskot --help` says what there is.")
            }
            Failure::Output(why) => match in_words(rt.alloc(), why) {
                Ok(why) => eprintln!(rt; "vindaskot: standard output can't be written: {why}."),
                Err(_) => eprintln!(rt; "vindaskot: standard output can't be written."),
            },
            Failure::Memory => eprintln!(rt; "vindaskot: there is no memory left."),
        };
    }
}

/// The status of an end: whether all was done as asked, or why not.
pub fn status(end: &Result<bool, Failure>) -> u8
    ensures { result ≡ status_of end.now }
{
    match end {
        Ok(true) => 0,
        Ok(false) => 1,
        Err(failure) => failure.status(),
    }
}

fn known(kind: ErrorKind) -> Option<&'static str> {
    match kind {
        ErrorKind::NotFound => Some("there is no such file"),
        ErrorKind::PermissionDenied => Some("there is no permission to read it"),
        ErrorKind::IsADirectory => Some("it is a directory"),
        ErrorKind::StorageFull => Some("no space is left"),
        _ => None,
    }
}

fn without_number(told: &str) -> &str {
    match told.split_once(" (os error ") {
        Some((words, _)) => words,
        None => told,
    }
}

/// An error of the system, with no number: it says nothing to a reader, and a refusal has one of its own.
pub fn in_words(alloc: Global, why: &io::Error) -> Result<String, AllocError> {
    if let Some(words) = known(why.kind()) {
        return String::from_str(alloc, words);
    }
    let told = format!(in alloc; "{why}")?;
    let mut small = String::new(alloc);
    for letter in without_number(told.as_str()).chars() {
        let is_first = small.is_empty();
        small.push(if is_first {
            letter.to_ascii_lowercase()
        } else {
            letter
        })?;
    }
    Ok(small)
}

// The theorem, the contract of a function that does nothing.

/// Each end has its status: 0 where all was done, or the reader of what is written has gone; 1 where something was refused or left
/// out; 2 for the arguments, a file, output and memory.
pub fn status_meant()
    ensures { StatusMeant }
{}
