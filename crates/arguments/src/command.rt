//! The commands.

ghost use Rattle.std.specs.Prelude.{◌≡◌};
ghost use Rattle.arguments.specs.Command.{command_of, task_of, has_json, unsuited, unsuited_to_room};

use crate::misuse::{Misuse, Rule};
use crate::options::{Flag, Options};
use refusal::Mode;
use upload::Form;

/// The word that says what to do: with a length, with lines, with a sheet, or with a file.
#[derive(Clone, Copy)]
pub enum Command {
    Room,
    Captures,
    Sheet,
    OfFile(Task),
}

/// What is done with a file.
#[derive(Clone, Copy)]
pub enum Task {
    Find,
    Show,
    Why,
    List,
    Branch,
    Types,
    Check,
    Plain,
    Compare,
    Salvage,
    Bind,
}

/// The command of a word.
#[tactic(auto, unfolding(crate::specs::Command::command_of))]
pub fn command_of(word: &str) -> Option<Command>
    ensures { result ≡ command_of word.now }
{
    match word {
        "room" => Some(Command::Room),
        "captures" => Some(Command::Captures),
        "sheet" => Some(Command::Sheet),
        _ => match task_of(word) {
            Some(task) => Some(Command::OfFile(task)),
            None => None,
        },
    }
}

#[tactic(auto, unfolding(crate::specs::Command::task_of))]
fn task_of(word: &str) -> Option<Task>
    ensures { result ≡ task_of word.now }
{
    match word {
        "find" => Some(Task::Find),
        "show" => Some(Task::Show),
        "why" => Some(Task::Why),
        "list" => Some(Task::List),
        "branch" => Some(Task::Branch),
        "type" => Some(Task::Types),
        "check" => Some(Task::Check),
        "plain" => Some(Task::Plain),
        "compare" => Some(Task::Compare),
        "salvage" => Some(Task::Salvage),
        "bind" => Some(Task::Bind),
        _ => None,
    }
}

fn has_json(command: Command) -> bool
    ensures { result ≡ has_json command }
{
    matches!(
        command,
        Command::OfFile(Task::List | Task::Branch | Task::Types | Task::Compare | Task::Bind)
    )
}

/// Why options are not for a command, whatever its operands are.
#[tactic(auto, unfolding(crate::specs::Command::unsuited))]
pub fn unsuited<'a>(options: Options, command: Command, word: &'a str) -> Option<Misuse<'a>>
    ensures { result ≡ unsuited options command word.entry }
{
    if options.json && !has_json(command) {
        return Some(not_for(Flag::Json, word));
    }
    if options.sorted && !matches!(command, Command::OfFile(Task::List)) {
        return Some(not_for(Flag::Sorted, word));
    }
    match command {
        Command::Room => unsuited_to_room(options, word),
        Command::OfFile(Task::Plain) => match options.mode {
            Mode::Checked => Some(Misuse::Against(Rule::PlainAsItIs)),
            Mode::Present => None,
        },
        _ => None,
    }
}

fn not_for<'a>(flag: Flag, command: &'a str) -> Misuse<'a>
    ensures { result ≡ Misuse.NotFor flag command.entry }
{
    Misuse::NotFor { flag, command }
}

#[tactic(auto, unfolding(crate::specs::Command::unsuited_to_room))]
fn unsuited_to_room<'a>(options: Options, word: &'a str) -> Option<Misuse<'a>>
    ensures { result ≡ unsuited_to_room options word.entry }
{
    match (options.form, options.mode) {
        (Some(Form::Binary), _) => Some(not_for(Flag::Binary, word)),
        (Some(Form::Hexadecimal), _) => Some(not_for(Flag::Hexadecimal, word)),
        (None, Mode::Checked) => Some(not_for(Flag::Checked, word)),
        (None, Mode::Present) => None,
    }
}
