//! Which words of a line are options, and which are operands.

ghost use Rattle.std.specs.Prelude.{◌≡◌, ◌&&◌, IfOk, drop, slice_get};
ghost use Rattle.arguments.specs.Words.{is_option, ends_options, operands_of};

use std::alloc::{AllocError, Global};

/// Whether a word is one of options: a dash, and more behind it. A dash alone is standard input.
pub fn is_option(word: &str) -> bool
    ensures { result ≡ is_option word.now }
{
    word.len() > 1 && word.as_bytes()[0] == b'-'
}

/// Whether a word ends the options: all behind it are operands.
pub fn ends_options(word: &str) -> bool
    ensures { result ≡ ends_options word.now }
{
    word == "--"
}

// Whether a word is none of the operands: it is an option, or ends them.
fn is_passed(has_options: bool, word: &str) -> bool
    ensures { result ≡ (has_options && is_option word.now) }
{
    has_options && is_option(word)
}

/// The operand of a number, from 0 on.
#[tactic(auto, using(crate::proofs::OperandLaws::pick_past, crate::proofs::OperandLaws::pick_here, crate::proofs::OperandLaws::pick_later, crate::proofs::OperandLaws::pick_none))]
pub fn operand<'a>(line: &[&'a str], number: usize) -> Option<&'a str>
    ensures { result ≡ slice_get (operands_of line.now) number }
{
    let mut left = number;
    let mut has_options = true;
    for word in line {
        if is_passed(has_options, word) {
            has_options = !ends_options(word);
        } else if left == 0 {
            return Some(*word);
        } else {
            left -= 1;
        }
    }
    None
}

/// The operands of a line from a number on.
#[derive(Clone, Copy)]
pub struct Operands<'a> {
    /// All words of the line.
    pub line: &'a [&'a str],
    /// How many operands stand before these.
    pub first: usize,
}

impl<'a> Operands<'a> {
    /// A list of them.
    ///
    /// # Errors
    ///
    /// Where there is no memory left.
    #[tactic(auto, using(crate::proofs::OperandLaws::list_pushed))]
    pub fn to_vec(self, alloc: Global) -> Result<Vec<&'a str>, AllocError>
        ensures { IfOk result (λ v. v.items ≡ drop self.entry.first (operands_of self.entry.line.now)) }
    {
        let mut operands = Vec::new(alloc);
        let mut before = self.first;
        let mut has_options = true;
        for word in self.line {
            if is_passed(has_options, word) {
                has_options = !ends_options(word);
                continue;
            }
            if before > 0 {
                before -= 1;
                continue;
            }
            operands.push(*word).map_err(AllocError::from)?;
        }
        Ok(operands)
    }
}
