// Uploads in hexadecimal, one a line, on standard input; on standard output the listing of each, and that of the lines that it
// is split into. stdin and stdout here are written by tools/captures_rig.py.
#![tactic(auto)]

use listing::Failure;
use refusal::Mode;
use std::alloc::Global;
use std::io;
use std::io::{BufWriter, ErrorKind, Read, Write};
use writing::WriteError;

fn main(rt: HostRuntime) -> io::Result<()> {
    let mut text = Vec::new(rt.alloc());
    rt.stdin().read_to_end(&mut text)?;
    let mut output = BufWriter::with_capacity(rt.alloc(), 65536, rt.stdout())?;
    for line in text.as_slice().split(|byte| *byte == b'\n') {
        list(line, rt.alloc(), &mut output)?;
        list(&moved(line, rt.alloc())?, rt.alloc(), &mut output)?;
    }
    output.flush()
}

// The lines of the upload that a line spells.
fn moved(line: &[u8], alloc: Global) -> io::Result<Vec<u8>> {
    let upload = made(captures::join_to_vec(alloc, line))?;
    made(captures::split_to_vec(alloc, upload.as_slice()))
}

fn made(bytes: Result<Vec<u8>, WriteError>) -> io::Result<Vec<u8>> {
    match bytes {
        Ok(bytes) => Ok(bytes),
        Err(WriteError::OutOfMemory) => Err(io::Error::from(ErrorKind::OutOfMemory)),
        Err(WriteError::Refused(_)) => Err(io::Error::from(ErrorKind::InvalidData)),
    }
}

fn list<W: Write>(text: &[u8], alloc: Global, output: &mut W) -> io::Result<()> {
    let mut input = text;
    match listing::list(&mut input, output, alloc, Mode::Present) {
        Ok(()) => Ok(()),
        Err(Failure::Input(why)) => Err(why),
        Err(Failure::Endless) => Err(io::Error::from(ErrorKind::FileTooLarge)),
        Err(Failure::Output(why)) => Err(why),
    }
}
