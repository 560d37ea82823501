// A case: a letter, then arguments in hexadecimal, one space before each, `-` for none. And how bytes and refusals are answered.
use refusal::{Mode, Refusal};
use std::alloc::{AllocError, Global};
use std::io::Write;
use std::{fmt, io};

#[derive(Drop)]
pub struct Case {
    pub kind: u8,
    arguments: Vec<Vec<u8>>,
}

impl Case {
    /// What is no hexadecimal text counts as no bytes.
    pub fn read(alloc: Global, line: &str) -> Result<Case, AllocError> {
        let kind = line.as_bytes().first().copied().unwrap_or(0);
        let mut arguments = Vec::new(alloc);
        for word in line.split(' ').skip(1) {
            arguments.push(hex::decode(alloc, word).unwrap_or(Vec::new(alloc)))?;
        }
        Ok(Case { kind, arguments })
    }

    /// The argument with a number, counted from 0.
    pub fn bytes(&self, number: usize) -> &[u8] {
        match self.arguments.get(number) {
            Some(bytes) => bytes.as_slice(),
            None => &[],
        }
    }

    pub fn number(&self, number: usize) -> u32 {
        le::first_u32(self.bytes(number))
    }

    /// The arguments from a number on.
    pub fn rest(&self, number: usize) -> &[Vec<u8>] {
        match self.arguments.get(number..) {
            Some(arguments) => arguments,
            None => &[],
        }
    }

    /// The mode of a reading: 0 the present one, 1 the checked one.
    pub fn mode(&self, number: usize) -> Mode {
        match self.number(number) {
            1 => Mode::Checked,
            _ => Mode::Present,
        }
    }
}

/// Bytes in hexadecimal, in capitals; a dash where there are none.
#[derive(Clone, Copy)]
pub struct Hex<'a>(pub &'a [u8]);

impl fmt::Display for Hex<'_> {
    fn fmt<W: fmt::Write>(&self, f: &mut fmt::Formatter<W>) -> fmt::Result {
        if self.0.is_empty() {
            return write!(f, "-");
        }
        for byte in self.0 {
            write!(f, "{byte:02X}")?;
        }
        Ok(())
    }
}

pub fn refused<W: Write>(why: Refusal, out: &mut W) -> io::Result<()> {
    let figures = why.figures();
    let number = figures.number;
    let expected = figures.expected;
    let got = figures.got;
    write!(out, " no {number} {expected} {got}")
}

/// Of more than twelve records the first six and the last six are told.
pub fn is_told(number: usize, count: usize) -> bool {
    number < 6 || count.saturating_sub(number) <= 6
}
