//! What a line asks for.

ghost use Rattle.std.specs.Prelude.{◌≡◌, codes};
ghost use Rattle.std.specs.List.{list_all};
ghost use Rattle.std.specs.Str.{bytes_eq};
ghost use Rattle.arguments.specs.Request.{is_digit, needed, length_of, room_of, make_of, against_captures, captures_of, export_of, import_of, sheet_of, other_file, find_of, of_a_word, compare_of, bind_of, asked_of, run_of, ask, most, most_asked, without_more, suited, request_of, read_of};

use crate::command::{Command, Task, command_of, unsuited};
use crate::misuse::{Expected, Misuse, Need, Rule};
use crate::operands::{Operands, operand};
use crate::options::{Options, Said, read_options};
use refusal::Mode;
use upload::Form;

/// What is asked for.
#[derive(Clone, Copy)]
pub enum Request<'a> {
    /// The help text.
    Help,
    /// The version.
    Version,
    /// The slots of an upload of which nothing but its length is known.
    Room {
        /// In bytes.
        length: usize,
    },
    /// Something of a file.
    Run(Run<'a>),
    /// The lines of a file, or a file of lines.
    Captures {
        /// Its path, or `-` for standard input.
        file: &'a str,
        /// The form that was told of an upload that is split.
        form: Option<Form>,
        /// What is made of it.
        make: Captures,
    },
    /// The sheet of an upload.
    SheetExport {
        /// The upload's path, or `-` for standard input.
        file: &'a str,
        /// The form that was told.
        form: Option<Form>,
    },
    /// The upload of a sheet.
    SheetImport {
        /// The sheet's path, or `-` for standard input.
        file: &'a str,
        /// Where the upload is written.
        to: &'a str,
    },
}

/// What is asked of a file.
#[derive(Clone, Copy)]
pub struct Run<'a> {
    /// Its path, or `-` for standard input.
    pub file: &'a str,
    /// The form that was told, or `None` to look at the content.
    pub form: Option<Form>,
    /// How entries are read.
    pub mode: Mode,
    /// What is asked.
    pub asked: Asked<'a>,
}

/// The words for a file, with what belongs to each.
#[derive(Clone, Copy)]
pub enum Asked<'a> {
    /// Where a symbol is, or the value of one of its attributes.
    Find {
        name: &'a str,
        attribute: Option<&'a str>,
    },
    /// Everything of a symbol.
    Show {
        name: &'a str,
    },
    /// Why sections of a symbol are there or not.
    Why {
        name: &'a str,
    },
    /// The entries.
    List {
        /// In the order of the names.
        sorted: bool,
        json: bool,
    },
    /// The symbols whose names begin with a text.
    Branch {
        text: &'a str,
        json: bool,
    },
    /// Data types, all or the first of a name.
    Types {
        name: Option<&'a str>,
        json: bool,
    },
    /// What is refused.
    Check,
    /// Whether each symbol is what would be written of it.
    Plain,
    /// Which entries differ.
    Compare {
        /// The file that the first is held against.
        with: &'a str,
        json: bool,
    },
    /// The accepted entries.
    Salvage {
        /// Where what is kept is written to.
        to: &'a str,
    },
    /// The addresses of variables.
    Bind {
        /// The upload of data types.
        types: &'a str,
        paths: Operands<'a>,
        json: bool,
    },
}

/// What is made of a file: lines of an upload, or an upload of lines.
#[derive(Clone, Copy)]
pub enum Captures {
    /// The upload is split into lines.
    Split,
    /// Each line is an upload, and is split.
    Each,
    /// The lines are joined.
    Join,
}

// A line, its command's word and its options.
#[derive(Clone, Copy)]
struct Line<'a> {
    words: &'a [&'a str],
    command: &'a str,
    options: Options,
}

// The operand of a number, which a command can't do without. The command is number 0.
fn needed<'a>(line: Line<'a>, number: usize, need: Need) -> Result<&'a str, Misuse<'a>>
    ensures { result ≡ needed line.entry number need }
{
    operand(line.words, number).ok_or(Misuse::Lacks {
        command: line.command,
        need,
    })
}

fn is_digits(word: &str) -> bool
    ensures { result ≡ list_all is_digit word.now }
{
    word.as_bytes().iter().all(|byte| byte.is_ascii_digit())
}

// A number of bytes in decimal digits. Zeros may stand before it, since scripts pad their numbers; a plus sign may not.
#[tactic(auto, unfolding(crate::specs::Request::length_of))]
fn length_of<'a>(word: &'a str) -> Result<usize, Misuse<'a>>
    ensures { result ≡ length_of word.entry }
{
    if word.is_empty() || !is_digits(word) {
        return Err(Misuse::Unfit {
            expected: Expected::Digits,
            word,
        });
    }
    match word.parse::<usize>() {
        Ok(length) => Ok(length),
        Err(_) => Err(Misuse::Unfit {
            expected: Expected::Length,
            word,
        }),
    }
}

#[tactic(auto, unfolding(crate::specs::Request::room_of))]
fn room_of<'a>(line: Line<'a>) -> Result<Request<'a>, Misuse<'a>>
    ensures { result ≡ room_of line.entry }
{
    let length = length_of(needed(line, 1, Need::Length)?)?;
    Ok(Request::Room { length })
}

#[tactic(auto, unfolding(crate::specs::Request::make_of))]
fn make_of<'a>(word: &'a str) -> Result<Captures, Misuse<'a>>
    ensures { result ≡ make_of word.entry }
{
    match word {
        "split" => Ok(Captures::Split),
        "each" => Ok(Captures::Each),
        "join" => Ok(Captures::Join),
        _ => Err(Misuse::Unfit {
            expected: Expected::Make,
            word,
        }),
    }
}

// Of lines the form is known, and no entry is read.
#[tactic(auto, unfolding(crate::specs::Request::against_captures))]
fn against_captures(options: Options, make: Captures) -> Option<Rule>
    ensures { result ≡ against_captures options make }
{
    if options.mode == Mode::Checked {
        return Some(Rule::CapturesUnchecked);
    }
    if options.form.is_some() && !matches!(make, Captures::Split) {
        return Some(Rule::CapturesOfLines);
    }
    None
}

#[tactic(auto, unfolding(crate::specs::Request::captures_of))]
fn captures_of<'a>(line: Line<'a>) -> Result<Request<'a>, Misuse<'a>>
    ensures { result ≡ captures_of line.entry }
{
    let make = make_of(needed(line, 1, Need::Make)?)?;
    if let Some(rule) = against_captures(line.options, make) {
        return Err(Misuse::Against(rule));
    }
    let file = needed(line, 2, Need::File)?;
    Ok(Request::Captures {
        file,
        form: line.options.form,
        make,
    })
}

#[tactic(auto, unfolding(crate::specs::Request::export_of))]
fn export_of<'a>(line: Line<'a>) -> Result<Request<'a>, Misuse<'a>>
    ensures { result ≡ export_of line.entry }
{
    let file = needed(line, 2, Need::File)?;
    Ok(Request::SheetExport {
        file,
        form: line.options.form,
    })
}

#[tactic(auto, unfolding(crate::specs::Request::import_of))]
fn import_of<'a>(line: Line<'a>) -> Result<Request<'a>, Misuse<'a>>
    ensures { result ≡ import_of line.entry }
{
    if line.options.form.is_some() {
        return Err(Misuse::Against(Rule::SheetOfText));
    }
    let file = needed(line, 2, Need::Sheet)?;
    let to = needed(line, 3, Need::Upload)?;
    Ok(Request::SheetImport { file, to })
}

// An upload is read in the present mode, and a sheet is text.
#[tactic(auto, unfolding(crate::specs::Request::sheet_of))]
fn sheet_of<'a>(line: Line<'a>) -> Result<Request<'a>, Misuse<'a>>
    ensures { result ≡ sheet_of line.entry }
{
    let word = needed(line, 1, Need::Way)?;
    if line.options.mode == Mode::Checked {
        return Err(Misuse::Against(Rule::SheetUnchecked));
    }
    match word {
        "export" => export_of(line),
        "import" => import_of(line),
        _ => Err(Misuse::Unfit {
            expected: Expected::Way,
            word,
        }),
    }
}

fn is_standard_input(word: &str) -> bool
    ensures { result ≡ bytes_eq word.now (codes "-") }
{
    word == "-"
}

// A second file. Standard input can't be both.
#[tactic(auto, unfolding(crate::specs::Request::other_file))]
fn other_file<'a>(line: Line<'a>, file: &str, both: Rule) -> Result<&'a str, Misuse<'a>>
    ensures { result ≡ other_file line.entry file.now both }
{
    let other = needed(line, 2, Need::OtherFile)?;
    if is_standard_input(file) && is_standard_input(other) {
        return Err(Misuse::Against(both));
    }
    Ok(other)
}

#[tactic(auto, unfolding(crate::specs::Request::find_of))]
fn find_of<'a>(line: Line<'a>) -> Result<Asked<'a>, Misuse<'a>>
    ensures { result ≡ find_of line.entry }
{
    let name = needed(line, 2, Need::Symbol)?;
    let attribute = operand(line.words, 3);
    Ok(Asked::Find { name, attribute })
}

#[tactic(auto, unfolding(crate::specs::Request::compare_of))]
fn compare_of<'a>(line: Line<'a>, file: &str) -> Result<Asked<'a>, Misuse<'a>>
    ensures { result ≡ compare_of line.entry file.now }
{
    let with = other_file(line, file, Rule::CompareOnce)?;
    let json = line.options.json;
    Ok(Asked::Compare { with, json })
}

// The paths are all that is left, one at least.
#[tactic(auto, unfolding(crate::specs::Request::bind_of))]
fn bind_of<'a>(line: Line<'a>, file: &str) -> Result<Asked<'a>, Misuse<'a>>
    ensures { result ≡ bind_of line.entry file.now }
{
    let types = other_file(line, file, Rule::BindOnce)?;
    needed(line, 3, Need::Variable)?;
    Ok(Asked::Bind {
        types,
        paths: Operands {
            line: line.words,
            first: 3,
        },
        json: line.options.json,
    })
}

// What is asked of a symbol or a text, or written to a path: one operand.
#[tactic(auto, unfolding(crate::specs::Request::of_a_word))]
fn of_a_word<'a>(line: Line<'a>, task: Task) -> Result<Asked<'a>, Misuse<'a>>
    ensures { result ≡ of_a_word line.entry task }
{
    match task {
        Task::Show => Ok(Asked::Show {
            name: needed(line, 2, Need::Symbol)?,
        }),
        Task::Why => Ok(Asked::Why {
            name: needed(line, 2, Need::Symbol)?,
        }),
        Task::Branch => Ok(Asked::Branch {
            text: needed(line, 2, Need::Text)?,
            json: line.options.json,
        }),
        _ => Ok(Asked::Salvage {
            to: needed(line, 2, Need::Kept)?,
        }),
    }
}

#[tactic(auto, unfolding(crate::specs::Request::asked_of))]
fn asked_of<'a>(line: Line<'a>, task: Task, file: &str) -> Result<Asked<'a>, Misuse<'a>>
    ensures { result ≡ asked_of line.entry task file.now }
{
    let (sorted, json) = (line.options.sorted, line.options.json);
    match task {
        Task::Find => find_of(line),
        Task::List => Ok(Asked::List { sorted, json }),
        Task::Types => Ok(Asked::Types {
            name: operand(line.words, 2),
            json,
        }),
        Task::Check => Ok(Asked::Check),
        Task::Plain => Ok(Asked::Plain),
        Task::Compare => compare_of(line, file),
        Task::Bind => bind_of(line, file),
        _ => of_a_word(line, task),
    }
}

#[tactic(auto, unfolding(crate::specs::Request::run_of))]
fn run_of<'a>(line: Line<'a>, task: Task) -> Result<Request<'a>, Misuse<'a>>
    ensures { result ≡ run_of line.entry task }
{
    let file = needed(line, 1, Need::File)?;
    let asked = asked_of(line, task, file)?;
    Ok(Request::Run(Run {
        file,
        form: line.options.form,
        mode: line.options.mode,
        asked,
    }))
}

fn ask<'a>(line: Line<'a>, command: Command) -> Result<Request<'a>, Misuse<'a>>
    ensures { result ≡ ask line.entry command }
{
    match command {
        Command::Room => room_of(line),
        Command::Captures => captures_of(line),
        Command::Sheet => sheet_of(line),
        Command::OfFile(task) => run_of(line, task),
    }
}

fn most_asked(asked: Asked<'_>) -> Option<usize>
    ensures { result ≡ most_asked asked.entry }
{
    match asked {
        Asked::Find { .. } => Some(4),
        Asked::Show { .. } | Asked::Why { .. } | Asked::Branch { .. } => Some(3),
        Asked::Types { .. } | Asked::Compare { .. } | Asked::Salvage { .. } => Some(3),
        Asked::List { .. } | Asked::Check | Asked::Plain => Some(2),
        Asked::Bind { .. } => None,
    }
}

// How many operands there are at most, with the command.
fn most(request: Request<'_>) -> Option<usize>
    ensures { result ≡ most request.entry }
{
    match request {
        Request::Room { .. } => Some(2),
        Request::Captures { .. } | Request::SheetExport { .. } => Some(3),
        Request::SheetImport { .. } => Some(4),
        Request::Run(run) => most_asked(run.asked),
        Request::Help | Request::Version => None,
    }
}

#[tactic(auto, unfolding(crate::specs::Request::without_more))]
fn without_more<'a>(line: Line<'a>, request: Request<'a>) -> Result<Request<'a>, Misuse<'a>>
    ensures { result ≡ without_more line.entry request.entry }
{
    let Some(count) = most(request) else {
        return Ok(request);
    };
    match operand(line.words, count) {
        None => Ok(request),
        Some(word) => Err(Misuse::Extra {
            command: line.command,
            word,
        }),
    }
}

#[tactic(auto, unfolding(crate::specs::Request::suited))]
fn suited<'a>(line: Line<'a>, command: Command) -> Result<Request<'a>, Misuse<'a>>
    ensures { result ≡ suited line.entry command }
{
    if let Some(why) = unsuited(line.options, command, line.command) {
        return Err(why);
    }
    let request = ask(line, command)?;
    without_more(line, request)
}

#[tactic(auto, unfolding(crate::specs::Request::request_of))]
fn request_of<'a>(words: &'a [&'a str], options: Options) -> Result<Request<'a>, Misuse<'a>>
    ensures { result ≡ request_of words.entry options }
{
    let Some(word) = operand(words, 0) else {
        return Err(Misuse::Against(Rule::HasCommand));
    };
    let Some(command) = command_of(word) else {
        return Err(Misuse::Unfit {
            expected: Expected::Command,
            word,
        });
    };
    let line = Line {
        words,
        command: word,
        options,
    };
    suited(line, command)
}

/// What a line asks for: the words behind the program's name.
///
/// # Errors
///
/// What is wrong with it: of the options first, then the command, then what does not suit it.
#[tactic(auto, unfolding(crate::specs::Request::read_of))]
pub fn read<'a>(words: &'a [&'a str]) -> Result<Request<'a>, Misuse<'a>>
    ensures { result ≡ read_of words.entry }
{
    match read_options(words) {
        Ok(Said::Given(options)) => request_of(words, options),
        Ok(Said::Help) => Ok(Request::Help),
        Ok(Said::Version) => Ok(Request::Version),
        Err(why) => Err(why),
    }
}
