//! What is wrong with a line, in words.

use crate::options::{Flag, name_of};
use std::fmt;
use std::fmt::{Display, Formatter, Write};

/// What a command lacks.
#[derive(Clone, Copy)]
pub enum Need {
    /// The file that is read.
    File,
    /// The file that the first is held against, or read with.
    OtherFile,
    /// A symbol's name.
    Symbol,
    /// The text that names begin with.
    Text,
    /// The path of a variable.
    Variable,
    /// Where a salvage is written.
    Kept,
    /// The length of an upload.
    Length,
    /// What is made of lines.
    Make,
    /// The way between upload and sheet.
    Way,
    /// The sheet that is read.
    Sheet,
    /// Where a sheet's upload is written.
    Upload,
}

impl Need {
    fn words(self) -> &'static str {
        match self {
            Need::File => "a file, or - for standard input",
            Need::OtherFile => "a second file, or - for standard input",
            Need::Symbol => "the name of a symbol",
            Need::Text => "the text that names begin with",
            Need::Variable => "the path of a variable",
            Need::Kept => "a path that what is kept is written to",
            Need::Length => "the length of an upload",
            Need::Make => "split, each or join",
            Need::Way => "export or import",
            Need::Sheet => "a sheet, or - for standard input",
            Need::Upload => "a path that the upload is written to",
        }
    }
}

/// What a word should have been.
#[derive(Clone, Copy)]
pub enum Expected {
    /// A command.
    Command,
    /// `split`, `each` or `join`.
    Make,
    /// `export` or `import`.
    Way,
    /// A number in digits.
    Digits,
    /// A number below 2^64.
    Length,
}

impl Expected {
    fn words(self) -> &'static str {
        match self {
            Expected::Command => "there is no command",
            Expected::Make => "captures needs split, each or join, not",
            Expected::Way => "sheet needs export or import, not",
            Expected::Digits => "room needs the length of an upload in digits, not",
            Expected::Length => "room needs a length of at most 64 bits, not",
        }
    }
}

/// A rule that a line breaks as a whole.
#[derive(Clone, Copy)]
pub enum Rule {
    /// A line has a command.
    HasCommand,
    /// A file is binary or text.
    OneForm,
    /// `plain` reads in the present mode.
    PlainAsItIs,
    /// `captures` reads no entry.
    CapturesUnchecked,
    /// Lines are text.
    CapturesOfLines,
    /// `sheet` reads in the present mode.
    SheetUnchecked,
    /// A sheet is text.
    SheetOfText,
    /// Standard input is not both files of `compare`.
    CompareOnce,
    /// Standard input is not both files of `bind`.
    BindOnce,
}

impl Rule {
    fn words(self) -> &'static str {
        match self {
            Rule::HasCommand => "it is not said what to do",
            Rule::OneForm => "a file is not both --binary and --hex",
            Rule::PlainAsItIs => "plain wants every end byte to be 0 as it is, without --checked",
            Rule::CapturesUnchecked => "--checked is for what is read, and captures reads no entry",
            Rule::CapturesOfLines => "--binary and --hex are for captures split",
            Rule::SheetUnchecked => {
                "--checked is not for sheet: export refuses what checking would"
            }
            Rule::SheetOfText => "--binary and --hex are for sheet export",
            Rule::CompareOnce => "compare reads standard input once, for one of A and B",
            Rule::BindOnce => "bind reads standard input once, for one of SYMBOLS and TYPES",
        }
    }
}

/// Why a line asks for nothing; it displays itself in words.
#[derive(Clone, Copy)]
pub enum Misuse<'a> {
    /// A rule is broken.
    Against(Rule),
    /// There is no such option.
    UnknownOption(&'a str),
    /// There is no option of that letter, or of several.
    UnknownLetters(&'a str),
    /// An option that has no value is given one.
    Valued(&'a str),
    /// An option is not for the command.
    NotFor {
        /// The option.
        flag: Flag,
        /// The command.
        command: &'a str,
    },
    /// A word is not what it should be.
    Unfit {
        /// What it should be.
        expected: Expected,
        /// The word.
        word: &'a str,
    },
    /// The command lacks an operand.
    Lacks {
        /// The command.
        command: &'a str,
        /// What is lacking.
        need: Need,
    },
    /// The command has an operand too many.
    Extra {
        /// The command.
        command: &'a str,
        /// The operand.
        word: &'a str,
    },
}

impl Display for Misuse<'_> {
    fn fmt<W: Write>(&self, f: &mut Formatter<W>) -> fmt::Result {
        match *self {
            Misuse::Against(rule) => f.write_str(rule.words()),
            Misuse::UnknownOption(word) => write_unknown(name_of(word), f),
            Misuse::UnknownLetters(word) => write_unknown(word, f),
            Misuse::Valued(word) => write_valued(word, f),
            Misuse::NotFor { flag, command } => write_not_for(flag, command, f),
            Misuse::Unfit { expected, word } => write_unfit(expected, word, f),
            Misuse::Lacks { command, need } => write_lack(command, need, f),
            Misuse::Extra { command, word } => write_extra(command, word, f),
        }
    }
}

fn write_unknown<W: Write>(name: &str, f: &mut Formatter<W>) -> fmt::Result {
    write!(f, "invalid option '{name}'")
}

fn write_valued<W: Write>(word: &str, f: &mut Formatter<W>) -> fmt::Result {
    match word.split_once('=') {
        Some((name, value)) => { write!(f, "unexpected argument for option '{name}': {value:?}") }
        None => Ok(()),
    }
}

fn write_not_for<W: Write>(flag: Flag, command: &str, f: &mut Formatter<W>) -> fmt::Result {
    let (option, users) = (flag.word(), flag.users());
    write!(f, "{option} is for {users}, not for {command}")
}

fn write_unfit<W: Write>(expected: Expected, word: &str, f: &mut Formatter<W>) -> fmt::Result {
    let before = expected.words();
    write!(f, "{before} {word:?}")
}

fn write_lack<W: Write>(command: &str, need: Need, f: &mut Formatter<W>) -> fmt::Result {
    let what = need.words();
    write!(f, "{command} needs {what}")
}

fn write_extra<W: Write>(command: &str, word: &str, f: &mut Formatter<W>) -> fmt::Result {
    write!(f, "{command} does not take {word:?} as well")
}
