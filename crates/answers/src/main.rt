//! Answers the case lines of standard input, a line each (tools/oracle/README.md has the format). It is run here on a recorded sample
//! of the Rust's own answers, against which tools/differ holds it, and on cases whose answers tools/cases.py works out.
//! Proved to be safe and to end, and no more: what it calls is what is compared.
#![tactic(auto)]

mod case;
mod fields;
mod records;
mod symbols;
mod texts;
mod types;
mod uploads;
mod writers;

use case::Case;
use refusal::Mode;
use std::alloc::Global;
use std::io;
use std::io::{BufRead, BufReader, BufWriter, Read, Write};

// The room that the writers are lent, in bytes: a field with a copy mask that fits takes no more in any case.
const SPARE: usize = 1_048_576;

fn answer<W: Write>(case: &Case, spare: &mut [u8], alloc: Global, out: &mut W) -> io::Result<()> {
    match case.kind {
        b'f' => records::flags(case.bytes(0), out),
        b'a' => records::attribute(case.bytes(0), out),
        b'r' => records::refactor(case.bytes(0), out),
        b'z' => records::refactor_size(case.bytes(0), out),
        b'c' => records::chain(case.bytes(0), out),
        b's' => symbols::direct(case.bytes(0), out),
        b'i' => fields::direct(case.bytes(0), out),
        b'w' => symbols::walk(case.bytes(1), Mode::Present, case.number(0) as usize, out),
        b'v' => symbols::walk(case.bytes(1), case.mode(0), 0, out),
        b'b' => symbols::bounded(case, out),
        b'k' => uploads::cuts(case, out),
        b'x' => uploads::index(case, alloc, out),
        b'n' => uploads::names(case, alloc, out),
        b'm' => uploads::room(case, out),
        b'g' => uploads::salvage(case, alloc, out),
        b'd' => types::direct(case, out),
        b'l' => types::list(case, alloc, out),
        b'T' => texts::shown(case, spare, out),
        b'G' => texts::fronts(case, spare, out),
        b'P' => texts::product(case, spare, out),
        _ => writers::answer(case, spare, out),
    }
}

fn answer_all<R: Read + Drop, W: Write>(input: R, out: &mut W, alloc: Global) -> io::Result<()> {
    let mut spare = vec![in alloc; 0u8; SPARE]?;
    for line in BufReader::new(alloc, input)?.lines(alloc) {
        let line = line?;
        let case = Case::read(alloc, &line)?;
        if let Some(kind) = line.chars().next() {
            write!(out, "{kind}")?;
            answer(&case, &mut spare, alloc, out)?;
        }
        writeln!(out)?;
    }
    Ok(())
}

fn main(rt: HostRuntime) -> io::Result<()> {
    let mut out = BufWriter::new(rt.alloc(), rt.stdout())?;
    answer_all(rt.stdin(), &mut out, rt.alloc())?;
    out.flush()
}
