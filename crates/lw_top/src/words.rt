ghost use Rattle.std.specs.Prelude.{◌≡◌, ◌≤◌, pos, Some, None, IfSome, if◌then◌else◌, option_map, unsigned_abs};
ghost use Rattle.lw_region.specs.Rectangle.{within};
ghost use Rattle.lw_grammar.specs.Tokens.{token_of, is_a_name};
ghost use Rattle.lw_top.specs.Commands.{asked_by, asked_in_a_word, bitmap_of, command_named, command_of, demo_of};
ghost use Rattle.lw_top.specs.Commands.{number_within, IsInRange};

use lw_words::{Token, is_text, token_of};

/// What the program is told to do.
#[derive(Clone, Copy, Debug)]
pub enum Command<'a> {
    /// Something with the script in its input.
    Script(ScriptCommand),
    /// Run the demo of this number with so many tasks, 1 to 16.
    Demo { number: u32, tasks: u32 },
    /// Write what the display in the input shows.
    Display,
    /// Write the picture in the input as a bitmap of this name.
    Bitmap { name: &'a str },
}

/// What is done with a script.
#[derive(Clone, Copy, Debug, PartialEq, Eq)]
pub enum ScriptCommand {
    /// Run a script, each task on a thread.
    Run,
    /// Write a script's canonical text.
    Check,
    /// Run a script of some tasks in the order that stands in it, and write this of the run.
    Replay(Output),
    /// Compare the report behind a script with the machine's in the order with which that report begins.
    Audit,
}

/// What is written of a run.
#[derive(Clone, Copy, Debug, PartialEq, Eq)]
pub enum Output {
    /// Its report.
    Report,
    /// Its screen, as an ILBM file.
    Picture,
}

/// The command that the words are, without the program's name; none where they are no command.
pub fn command_of(words: &[String]) -> Option<Command<'_>>
    ensures is { option_map asked_by result ≡ command_of words.now }
    ensures range { IfSome result (λ command. IsInRange (asked_by command)) }
{
    match words {
        [word] => command_in_a_word(word.as_bytes()),
        [word, name] => bitmap_of(word.as_bytes(), name.as_str()),
        [word, number, tasks] => {
            if !is_text(word.as_bytes(), b"demo") {
                return None;
            }
            demo_of(number.as_bytes(), tasks.as_bytes())
        }
        _ => None,
    }
}

/// The command that one word is, if it is one.
fn command_in_a_word<'a>(word: &[u8]) -> Option<Command<'a>>
    ensures is { option_map asked_by result ≡ asked_in_a_word word.now }
    ensures range { IfSome result (λ command. IsInRange (asked_by command)) }
{
    if is_text(word, b"display") {
        return Some(Command::Display);
    }
    match command_named(word) {
        Some(command) => Some(Command::Script(command)),
        None => None,
    }
}

/// The bitmap of this name, if the first word asks for one and the second is a name.
fn bitmap_of<'a>(word: &[u8], name: &'a str) -> Option<Command<'a>>
    ensures is { option_map asked_by result ≡ bitmap_of word.now name.now }
    ensures range { IfSome result (λ command. IsInRange (asked_by command)) }
{
    if is_text(word, b"bitmap") && is_name(name) {
        Some(Command::Bitmap { name })
    } else {
        None
    }
}

/// Whether the word is a name of a script: a letter, and then letters, digits or underscores, of 1 to 16 bytes.
pub fn is_name(word: &str) -> bool
    ensures { result ≡ is_a_name word.now }
{
    match token_of(word.as_bytes()) {
        Token::Name(_) => true,
        Token::Number(_, _) => false,
        Token::Text(_) => false,
        Token::Odd(_) => false,
    }
}

/// The demo of two words, if they are a number and a number of tasks.
fn demo_of<'a>(number: &[u8], tasks: &[u8]) -> Option<Command<'a>>
    ensures is { option_map asked_by result
        ≡ demo_of (number_within 0 4294967295 (token_of number.now)) (number_within 1 16 (token_of tasks.now)) }
    ensures range { IfSome result (λ command. IsInRange (asked_by command)) }
{
    let number = number_within(0, u32::MAX, number)?;
    let tasks = number_within(1, 16, tasks)?;
    Some(Command::Demo { number, tasks })
}

/// The number that a word is, if it is one from the least to the most, spelled as in a script.
fn number_within(least: u32, most: u32, word: &[u8]) -> Option<u32>
    ensures is { result ≡ number_within least most (token_of word.now) }
    ensures inside { IfSome result (λ n. (least ≤ n) × (n ≤ most)) }
{
    match token_of(word) {
        Token::Number(_, number) => value_within(least, most, number),
        _ => None,
    }
}

/// The number without a sign, if it is one from the least to the most.
#[tactic(auto, using(std::proofs::lemmas::Int::ints), unfolding(lw_region::specs::Rectangle::within))]
fn value_within(least: u32, most: u32, number: i64) -> Option<u32>
    ensures is { result ≡ if within (pos least) number (pos most) then Some (unsigned_abs number) else None }
    ensures inside { IfSome result (λ n. (least ≤ n) × (n ≤ most)) }
{
    if number < i64::from(least) || i64::from(most) < number {
        return None;
    }
    Some(number as u32)
}

fn command_named(word: &[u8]) -> Option<ScriptCommand>
    ensures { result ≡ command_named word.now }
{
    if is_text(word, b"run") {
        Some(ScriptCommand::Run)
    } else if is_text(word, b"check") {
        Some(ScriptCommand::Check)
    } else if is_text(word, b"replay") {
        Some(ScriptCommand::Replay(Output::Report))
    } else if is_text(word, b"audit") {
        Some(ScriptCommand::Audit)
    } else if is_text(word, b"ilbm") {
        Some(ScriptCommand::Replay(Output::Picture))
    } else {
        None
    }
}
