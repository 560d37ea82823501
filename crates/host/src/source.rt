//! What is read: a file or standard input, and words of the command line.

use crate::failure::Failure;
use refusal::Mode;
use report::Upload;
use std::alloc::Global;
use std::fmt::{Display, Formatter};
use std::io::{ErrorKind, Read};
use std::{fmt, fs};
use upload::{Fault, Form, ReadError, Taken};
use wording::{Bytes, Grouped, InWords};

/// An upload that was read.
#[derive(Drop)]
pub struct Source<'a> {
    path: &'a str,
    mode: Mode,
    taken: Taken,
}

impl Source<'_> {
    /// Its bytes, and where they are from.
    pub fn upload(&self) -> Upload<'_> {
        Upload {
            path: self.path,
            form: self.taken.form,
            mode: self.mode,
            bytes: self.taken.bytes.as_slice(),
        }
    }
}

/// A path, or what it stands for.
pub fn shown(path: &str) -> &str {
    if path == "-" { "standard input" } else { path }
}

/// Reads a file, or standard input where the path is `-`.
pub fn read<'a>(
    rt: &HostRuntime,
    path: &'a str,
    form: Option<Form>,
    mode: Mode,
) -> Result<Source<'a>, Failure> {
    let alloc = rt.alloc();
    let read = if path == "-" {
        upload::read(&mut rt.stdin(), alloc, form)
    } else {
        match fs::open(rt, path) {
            Ok(mut file) => upload::read(&mut file, alloc, form),
            Err(why) => Err(ReadError::Failed(why)),
        }
    };
    let path = shown(path);
    match read {
        Ok(taken) => Ok(Source { path, mode, taken }),
        Err(ReadError::Failed(why)) => Err(Failure::unreadable(alloc, path, &why)),
        Err(ReadError::Refused(fault)) => {
            let why = Why(fault);
            Err(Failure::of_refusal(format!(in alloc; "{path}: {why}")))
        }
    }
}

/// All that a file holds, or standard input: lines and sheets have no limit of their own.
pub fn read_text(rt: &HostRuntime, path: &str) -> Result<Vec<u8>, Failure> {
    let alloc = rt.alloc();
    let mut text = Vec::new(alloc);
    let read = if path == "-" {
        rt.stdin().read_to_end(&mut text)
    } else {
        match fs::open(rt, path) {
            Ok(mut file) => file.read_to_end(&mut text),
            Err(why) => Err(why),
        }
    };
    match read {
        Ok(_) => Ok(text),
        Err(why) if why.kind() == ErrorKind::OutOfMemory => Err(Failure::Memory),
        Err(why) => Err(Failure::unreadable(alloc, shown(path), &why)),
    }
}

/// A word of the command line as an upload would have it.
pub fn windows_1252(alloc: Global, word: &str) -> Result<Vec<u8>, Failure> {
    let mut bytes = vec![in alloc; 0u8; word.len()]?;
    match text::encode(word.as_bytes(), bytes.as_mut_slice()) {
        Ok(length) => {
            bytes.truncate(length);
            Ok(bytes)
        }
        Err(why) => {
            let why = InWords(&why);
            Err(Failure::of_refusal(format!(in alloc;
                "{word}: {why}; a name is asked for in UTF-8 and looked up in Windows-1252"
            )))
        }
    }
}

// Why bytes are no upload, with the number of the refusal.
#[derive(Clone, Copy)]
struct Why(Fault);

impl Display for Why {
    fn fmt<W: fmt::Write>(&self, f: &mut Formatter<W>) -> fmt::Result {
        match self.0 {
            Fault::TooLarge => f.write_str(
                "refusal 5, too large: an upload has at most 16,777,216 bytes, and this one has more",
            ),
            Fault::OddDigits { whole } => {
                let whole = Bytes(whole);
                write!(
                    f,
                    "refusal 12, bad hexadecimal text: an odd number of digits, so after {whole} one digit is left alone"
                )
            }
            Fault::NoDigit { byte, line, column } => {
                let what = NoDigit(byte);
                let (line, column) = (Grouped(line), Grouped(column));
                write!(
                    f,
                    "refusal 12, bad hexadecimal text: {what} in line {line}, column {column} is no hexadecimal digit"
                )
            }
        }
    }
}

// What stands where a digit should: a character that can be seen, or a byte.
#[derive(Clone, Copy)]
struct NoDigit(u8);

impl Display for NoDigit {
    fn fmt<W: fmt::Write>(&self, f: &mut Formatter<W>) -> fmt::Result {
        let byte = self.0;
        if byte.is_ascii_graphic() {
            let what = char::from(byte);
            write!(f, "{what:?}")
        } else {
            write!(f, "the byte {byte:02X}")
        }
    }
}
