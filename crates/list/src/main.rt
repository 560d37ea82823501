// Hexadecimal lines on standard input, their listing on standard output. It reads in the present mode.
// stdin and stdout here are written by tools/list_frames.py.
#![tactic(auto)]

use listing::Failure;
use refusal::Mode;
use std::io;
use std::io::{BufWriter, ErrorKind};

fn main(rt: HostRuntime) -> io::Result<()> {
    let mut output = BufWriter::with_capacity(rt.alloc(), 65536, rt.stdout())?;
    match listing::list(&mut rt.stdin(), &mut output, rt.alloc(), Mode::Present) {
        Ok(()) => Ok(()),
        Err(Failure::Input(why)) => Err(why),
        Err(Failure::Endless) => Err(io::Error::from(ErrorKind::FileTooLarge)),
        Err(Failure::Output(why)) => Err(why),
    }
}
