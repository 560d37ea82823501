// Text, with every buffer that tells something: nothing lent, which says what is needed; then a byte less, exactly that, and three more.
use crate::case::{Case, Hex};
use refusal::{Figures, Refusal};
use std::io;
use std::io::Write;

#[derive(Clone, Copy)]
enum Way {
    Decode,
    Encode,
}

// What is done with each run: how it ended, and the whole buffer after it, of which each byte was EE before.
trait Runs {
    fn run(&mut self, figures: Figures, left: &[u8]) -> io::Result<()>;
}

// Each is printed.
#[derive(Drop)]
struct Printed<'w, W> {
    out: &'w mut W,
}

impl<W: Write> Runs for Printed<'_, W> {
    fn run(&mut self, figures: Figures, left: &[u8]) -> io::Result<()> {
        let lent = left.len();
        let number = figures.number;
        let expected = figures.expected;
        let got = figures.got;
        let left = Hex(left);
        write!(self.out, " {lent} {number} {expected} {got} {left}")
    }
}

// How many ended how, and a checksum over all that they answered and left.
#[derive(Clone, Copy)]
struct Tally {
    done: u64,
    small: u64,
    not_utf8: u64,
    no_byte: u64,
    sum: u64,
}

fn mixed(sum: u64, number: u64) -> u64 {
    (sum % 4_294_967_291 * 16_777_619 + number % 4_294_967_291) % 4_294_967_291
}

impl Tally {
    fn new() -> Tally {
        Tally {
            done: 0,
            small: 0,
            not_utf8: 0,
            no_byte: 0,
            sum: 0,
        }
    }

    fn show<W: Write>(&self, out: &mut W) -> io::Result<()> {
        let Tally {
            done,
            small,
            not_utf8,
            no_byte,
            sum,
        } = *self;
        write!(out, " {done} {small} {not_utf8} {no_byte} {sum}")
    }
}

impl Runs for Tally {
    fn run(&mut self, figures: Figures, left: &[u8]) -> io::Result<()> {
        let count = match (figures.number, figures.got) {
            (0, _) => &mut self.done,
            (6, _) => &mut self.small,
            (_, 1) => &mut self.not_utf8,
            _ => &mut self.no_byte,
        };
        *count = count.wrapping_add(1);
        self.sum = mixed(self.sum, left.len() as u64);
        self.sum = mixed(self.sum, figures.number as u64);
        self.sum = mixed(self.sum, figures.expected as u64);
        self.sum = mixed(self.sum, figures.got as u64);
        for byte in left {
            self.sum = mixed(self.sum, *byte as u64);
        }
        Ok(())
    }
}

fn figures_of(answer: Result<usize, Refusal>) -> Figures {
    match answer {
        Ok(written) => Figures {
            number: 0,
            expected: written,
            got: 0,
        },
        Err(why) => why.figures(),
    }
}

// One run, with so many bytes lent of those to spare.
fn lend<R: Runs>(
    way: Way,
    source: &[u8],
    lent: usize,
    spare: &mut [u8],
    runs: &mut R,
) -> io::Result<()> {
    if let Some(out) = spare.get_mut(..lent) {
        out.fill(0xEE);
        let answer = match way {
            Way::Decode => text::decode(source, out),
            Way::Encode => text::encode(source, out),
        };
        runs.run(figures_of(answer), out)?;
    }
    Ok(())
}

// With nothing lent 11 comes before 6, and 6 says what is needed.
fn lend_each<R: Runs>(way: Way, source: &[u8], spare: &mut [u8], runs: &mut R) -> io::Result<()> {
    lend(way, source, 0, spare, runs)?;
    let answer = match way {
        Way::Decode => text::decode(source, &mut []),
        Way::Encode => text::encode(source, &mut []),
    };
    match answer {
        Err(Refusal::OutputTooSmall { needed, .. }) => {
            lend(way, source, needed.saturating_sub(1), spare, runs)?;
            lend(way, source, needed, spare, runs)?;
            lend(way, source, needed.saturating_add(3), spare, runs)
        }
        _ => lend(way, source, 12, spare, runs),
    }
}

fn way_of(case: &Case) -> Way {
    match case.number(0) {
        0 => Way::Decode,
        _ => Way::Encode,
    }
}

/// The bytes, each run printed.
pub fn shown<W: Write>(case: &Case, spare: &mut [u8], out: &mut W) -> io::Result<()> {
    lend_each(way_of(case), case.bytes(1), spare, &mut Printed { out })
}

/// Every front of the bytes, from none to all of them.
pub fn fronts<W: Write>(case: &Case, spare: &mut [u8], out: &mut W) -> io::Result<()> {
    let bytes = case.bytes(1);
    let mut tally = Tally::new();
    for length in 0..=bytes.len() {
        if let Some(front) = bytes.get(..length) {
            lend_each(way_of(case), front, spare, &mut tally)?;
        }
    }
    tally.show(out)
}

// The sequence with a number among those whose every byte is one of its set; the first byte changes with each number.
fn sequence(sets: &[Vec<u8>], number: usize) -> [u8; 4] {
    let mut bytes = [0; 4];
    let mut rest = number;
    for (set, byte) in sets.iter().zip(bytes.iter_mut()) {
        let size = set.len().max(1);
        if let Some(chosen) = set.get(rest % size) {
            *byte = *chosen;
        }
        rest /= size;
    }
    bytes
}

/// Every sequence of up to four bytes, each of which is one of a set.
pub fn product<W: Write>(case: &Case, spare: &mut [u8], out: &mut W) -> io::Result<()> {
    let sets = case.rest(1);
    let mut count: usize = 1;
    for set in sets {
        count = count.saturating_mul(set.len());
    }
    let mut tally = Tally::new();
    for number in 0..count {
        if let Some(bytes) = sequence(sets, number).get(..sets.len()) {
            lend_each(way_of(case), bytes, spare, &mut tally)?;
        }
    }
    tally.show(out)
}
