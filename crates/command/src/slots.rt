//! `room`: how many slots the index of an upload of so many bytes can need.

use host::failure::Failure;
use std::alloc::Global;
use std::io::Write;
use wording::InWords;

/// The number alone and without commas, for scripts.
pub fn room<W: Write>(alloc: Global, length: usize, out: &mut W) -> Result<(), Failure> {
    match room::room(length) {
        Ok(slots) => {
            writeln!(out, "{slots}")?;
            Ok(())
        }
        Err(why) => {
            let why = InWords(&why);
            Err(Failure::of_refusal(format!(in alloc; "{why}")))
        }
    }
}
