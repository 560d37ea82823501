//! Why an entry is not written into memory of its own.
#![tactic(auto)]

ghost use Rattle.std.specs.Prelude.{◌≡◌, Some};
ghost use Rattle.writing.specs.declared.error.WriteError.TheVariants.{Refused as refused, OutOfMemory as out_of_memory};
ghost use Rattle.writing.specs.Owned.{error_text};

use refusal::Refusal;
use std::alloc::AllocError;
use std::error::Error;
use std::fmt;

/// Why an entry is not written into memory of its own.
#[derive(Clone, Copy, Debug, PartialEq, Eq)]
pub enum WriteError {
    /// It is refused, as its `wire_size` is.
    Refused(Refusal),
    /// There is no memory for it.
    OutOfMemory,
}

impl From<Refusal> for WriteError {
    ghost from_gives = { λ why e. e ≡ refused why };

    fn from(why: Refusal) -> Self {
        WriteError::Refused(why)
    }
}

impl From<AllocError> for WriteError {
    ghost from_gives = { λ _ e. e ≡ out_of_memory };

    fn from(_none: AllocError) -> Self {
        WriteError::OutOfMemory
    }
}

impl fmt::Display for WriteError {
    ghost output = { λ e. Some (error_text e) };

    fn fmt<W: fmt::Write>(&self, f: &mut fmt::Formatter<W>) -> fmt::Result {
        match self {
            WriteError::Refused(why) => write!(f, "{why}"),
            WriteError::OutOfMemory => f.write_str("out of memory"),
        }
    }
}

impl Error for WriteError {}
