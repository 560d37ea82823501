//! `captures`: lines of an upload, and an upload of lines.

use arguments::Captures;
use host::failure::Failure;
use host::source;
use refusal::{Mode, Refusal};
use report::Upload;
use std::alloc::Global;
use std::io::Write;
use upload::Form;
use wording::Grouped;
use writing::WriteError;

/// Writes what is made of a file.
pub fn make<W: Write>(
    rt: &HostRuntime,
    file: &str,
    form: Option<Form>,
    make: Captures,
    out: &mut W,
) -> Result<(), Failure> {
    match make {
        Captures::Split => write_split(rt, file, form, out),
        Captures::Each => write_each(rt, file, out),
        Captures::Join => write_joined(rt, file, out),
    }
}

// The lines of an upload.
fn write_split<W: Write>(
    rt: &HostRuntime,
    file: &str,
    form: Option<Form>,
    out: &mut W,
) -> Result<(), Failure> {
    let source = source::read(rt, file, form, Mode::Present)?;
    let upload = source.upload();
    let lines = captures::split_to_vec(rt.alloc(), upload.bytes);
    write(rt.alloc(), lines, upload.path, out)
}

// The upload of all lines.
fn write_joined<W: Write>(rt: &HostRuntime, file: &str, out: &mut W) -> Result<(), Failure> {
    let text = source::read_text(rt, file)?;
    let path = source::shown(file);
    check_lines(rt.alloc(), text.as_slice(), path)?;
    let upload = captures::join_to_vec(rt.alloc(), text.as_slice());
    write(rt.alloc(), upload, path, out)
}

fn write<W: Write>(
    alloc: Global,
    made: Result<Vec<u8>, WriteError>,
    path: &str,
    out: &mut W,
) -> Result<(), Failure> {
    match made {
        Ok(bytes) => Ok(out.write_all(bytes.as_slice())?),
        Err(WriteError::OutOfMemory) => Err(Failure::Memory),
        Err(WriteError::Refused(why)) => Err(Failure::refused(alloc, path, &why)),
    }
}

// The lines of each line's upload. Nothing is written where one is no digits; one whose upload is too large is refused behind the
// lines of those before.
fn write_each<W: Write>(rt: &HostRuntime, file: &str, out: &mut W) -> Result<(), Failure> {
    let text = source::read_text(rt, file)?;
    let path = source::shown(file);
    check_lines(rt.alloc(), text.as_slice(), path)?;
    for line in text.as_slice().split(|byte| *byte == b'\n') {
        write(rt.alloc(), split_again(rt.alloc(), line), path, out)?;
    }
    Ok(())
}

// The lines of a line's upload.
fn split_again(alloc: Global, line: &[u8]) -> Result<Vec<u8>, WriteError> {
    let upload = captures::join_to_vec(alloc, line)?;
    captures::split_to_vec(alloc, upload.as_slice())
}

// Says in which line the first fault is, if there is one.
fn check_lines(alloc: Global, text: &[u8], path: &str) -> Result<(), Failure> {
    let mut number: usize = 0;
    for line in text.split(|byte| *byte == b'\n') {
        number = number.saturating_add(1);
        if let Err(Refusal::BadHexadecimal) = captures::join(line, &mut []) {
            let number = Grouped(number);
            return Err(Failure::of_refusal(format!(in alloc;
                "{path}: refusal 12, bad hexadecimal text: line {number} is not pairs of digits and nothing else"
            )));
        }
    }
    Ok(())
}
