//! What the words of the command line ask for (docs/FORMAT.md, "The command's text").
#![tactic(auto)]

ghost use Rattle.arguments.specs.Examples.{RequestsMeant};
ghost use Rattle.arguments.specs.Meant.{WordsSorted, OptionsMeant, CommandsMeant};

mod command;
mod misuse;
mod operands;
mod options;
mod request;

pub use misuse::{Expected, Misuse, Need, Rule};
pub use operands::Operands;
pub use options::Flag;
pub use request::{Asked, Captures, Request, Run, read};

// The theorems. Each is the contract of a function that does nothing, so that none goes unnoticed if its proof does.

/// Each line is sorted in one way into options, which stand anywhere before `--`, and operands, in their order; and asks for what these say.
pub fn words_sorted()
    ensures { WordsSorted }
{}

/// Which of two options stands first is all one; and what each word of options says.
pub fn options_meant()
    ensures { OptionsMeant }
{}

/// Each command has the operands and the options that the help text tells of it, and no other; a word that is none of them is told.
pub fn commands_meant()
    ensures { CommandsMeant }
{}

/// What each command asks for, with every operand another text.
pub fn requests_meant()
    ensures { RequestsMeant }
{}
