//! The options of a line.

ghost use Rattle.std.specs.Prelude.{◌≡◌, ◌==◌};
ghost use Rattle.std.specs.List.{list_any, before_first};
ghost use Rattle.arguments.specs.Options.{word_of, users_of, flag_of, with_flag, alone, marked, long, short, taken, options_from, options_of, none_given};

use crate::misuse::{Misuse, Rule};
use crate::operands::{ends_options, is_option};
use refusal::Mode;
use upload::Form;

/// An option that goes with a command.
#[derive(Clone, Copy)]
pub enum Flag {
    /// `--binary`
    Binary,
    /// `--hex`
    Hexadecimal,
    /// `--checked`
    Checked,
    /// `--json`
    Json,
    /// `--sorted`
    Sorted,
}

impl Flag {
    /// The word for it.
    pub fn word(self) -> &'static str
        ensures { result.now ≡ word_of self }
    {
        match self {
            Flag::Binary => "--binary",
            Flag::Hexadecimal => "--hex",
            Flag::Checked => "--checked",
            Flag::Json => "--json",
            Flag::Sorted => "--sorted",
        }
    }

    /// Whom it is for.
    pub fn users(self) -> &'static str
        ensures { result.now ≡ users_of self }
    {
        match self {
            Flag::Binary | Flag::Hexadecimal | Flag::Checked => "a file",
            Flag::Json => "list, branch, type, compare and bind",
            Flag::Sorted => "list",
        }
    }
}

/// The options that were given.
#[derive(Clone, Copy)]
pub struct Options {
    /// The form that was told of a file.
    pub form: Option<Form>,
    /// How entries are read.
    pub mode: Mode,
    /// Lines of JSON in place of a table.
    pub json: bool,
    /// In the order of the names.
    pub sorted: bool,
}

/// What the options of a line say. Help and the version, once asked for, are all that is done.
#[derive(Clone, Copy)]
pub enum Said {
    /// The help text is asked for.
    Help,
    /// The version is asked for.
    Version,
    /// These options are given.
    Given(Options),
}

fn none_given() -> Options
    ensures { result ≡ none_given }
{
    Options {
        form: None,
        mode: Mode::Present,
        json: false,
        sorted: false,
    }
}

/// What stands before the value of an option, or the whole word.
pub fn name_of(word: &str) -> &str
    ensures { result.now ≡ before_first (λ b. b == 61) word.now }
{
    match word.split_once('=') {
        Some((name, _)) => name,
        None => word,
    }
}

fn has_value(word: &str) -> bool
    ensures { result ≡ list_any (λ b. b == 61) word.now }
{
    word.as_bytes().iter().any(|byte| *byte == b'=')
}

#[tactic(auto, unfolding(crate::specs::Options::flag_of))]
fn flag_of(name: &str) -> Option<Flag>
    ensures { result ≡ flag_of name.now }
{
    match name {
        "--binary" => Some(Flag::Binary),
        "--hex" => Some(Flag::Hexadecimal),
        "--checked" => Some(Flag::Checked),
        "--json" => Some(Flag::Json),
        "--sorted" => Some(Flag::Sorted),
        _ => None,
    }
}

// With one more flag. A file has one form, which may be told twice.
#[tactic(auto, unfolding(crate::specs::Options::with_flag))]
fn with_flag(options: Options, flag: Flag) -> Option<Options>
    ensures { result ≡ with_flag options flag }
{
    let (mut form, mut mode, mut json, mut sorted) = (
        options.form,
        options.mode,
        options.json,
        options.sorted,
    );
    match (flag, form) {
        (Flag::Binary, Some(Form::Hexadecimal)) => return None,
        (Flag::Hexadecimal, Some(Form::Binary)) => return None,
        (Flag::Binary, _) => form = Some(Form::Binary),
        (Flag::Hexadecimal, _) => form = Some(Form::Hexadecimal),
        (Flag::Checked, _) => mode = Mode::Checked,
        (Flag::Json, _) => json = true,
        (Flag::Sorted, _) => sorted = true,
    }
    Some(Options {
        form,
        mode,
        json,
        sorted,
    })
}

// What a word says that has no value, as no option has.
#[tactic(auto, unfolding(crate::specs::Options::alone))]
fn alone<'a>(word: &'a str, said: Said) -> Result<Said, Misuse<'a>>
    ensures { result ≡ alone word.entry said }
{
    if has_value(word) {
        return Err(Misuse::Valued(word));
    }
    Ok(said)
}

// With the flag of a word.
#[tactic(auto, unfolding(crate::specs::Options::marked))]
fn marked<'a>(options: Options, flag: Flag, word: &'a str) -> Result<Said, Misuse<'a>>
    ensures { result ≡ marked options flag word.entry }
{
    match with_flag(options, flag) {
        None => Err(Misuse::Against(Rule::OneForm)),
        Some(more) => alone(word, Said::Given(more)),
    }
}

// A word that begins with two dashes.
#[tactic(auto, unfolding(crate::specs::Options::long))]
fn long<'a>(options: Options, word: &'a str) -> Result<Said, Misuse<'a>>
    ensures { result ≡ long options word.entry }
{
    let name = name_of(word);
    if name == "--help" {
        return alone(word, Said::Help);
    }
    if name == "--version" {
        return alone(word, Said::Version);
    }
    match flag_of(name) {
        Some(flag) => marked(options, flag, word),
        None => Err(Misuse::UnknownOption(word)),
    }
}

// A word with one dash.
#[tactic(auto, unfolding(crate::specs::Options::short))]
fn short<'a>(word: &'a str) -> Result<Said, Misuse<'a>>
    ensures { result ≡ short word.entry }
{
    match word {
        "-h" => Ok(Said::Help),
        "-V" => Ok(Said::Version),
        _ => Err(Misuse::UnknownLetters(word)),
    }
}

// A word of options.
#[tactic(auto, unfolding(crate::specs::Options::taken))]
fn taken<'a>(options: Options, word: &'a str) -> Result<Said, Misuse<'a>>
    ensures { result ≡ taken options word.entry }
{
    match word.as_bytes().get(1) {
        Some(b'-') => long(options, word),
        _ => short(word),
    }
}

/// What the options of a line say, which stand anywhere before `--`.
///
/// # Errors
///
/// The first word that is no option here, or contradicts one before it.
#[tactic(auto, using(crate::proofs::OptionLaws::passed_over, crate::proofs::OptionLaws::at_end, crate::proofs::OptionLaws::goes_on, crate::proofs::OptionLaws::help, crate::proofs::OptionLaws::version, crate::proofs::OptionLaws::refused, crate::proofs::OptionLaws::none_left))]
pub fn read_options<'a>(line: &[&'a str]) -> Result<Said, Misuse<'a>>
    ensures { result ≡ options_of line.now }
{
    let mut options = none_given();
    for word in line {
        if is_option(word) {
            if ends_options(word) {
                return Ok(Said::Given(options));
            }
            match taken(options, word) {
                Ok(Said::Given(more)) => options = more,
                Ok(Said::Help) => return Ok(Said::Help),
                Ok(Said::Version) => return Ok(Said::Version),
                Err(why) => return Err(why),
            }
        }
    }
    Ok(Said::Given(options))
}
