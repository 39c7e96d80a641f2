// The words of a command line.
ghost use Rattle.std.specs.Prelude.{◌≡◌, ◌∷◌, []};
ghost use Rattle.jo_value.specs.Keys.{is_unpadded, is_numeral};
ghost use Rattle.jo_program.specs.Words.{command_of, is_word, made_in, number_in, run_with, turns_in};

use jo_answer::{Form, RunOptions};
use jo_value::{DEFAULT_TURNS, MOST_MADE, MOST_TURNS};

/// What a command line asks for.
#[derive(Clone, Copy, Debug, PartialEq, Eq)]
pub enum Command {
    /// To read a set and run it.
    Run(RunOptions),
    /// To write the made set with this number.
    Make(u32),
    /// To run the made set with this number.
    RunMade(u32),
}

/// What the words ask for, where they are a command line of the program.
pub(crate) fn command_of(words: &[String]) -> Option<Command>
    ensures { result ≡ command_of words.now }
{
    match words {
        [word] => is_word(word, "run").then_some(run_with(Form::Output, DEFAULT_TURNS)),
        [word, second] => command_of_two(word, second),
        [word, option, turns] => {
            if is_word(word, "run") && is_word(option, "--turns") {
                Some(run_with(Form::Output, turns_in(turns)?))
            } else {
                None
            }
        }
        [word, stats, option, turns] => {
            if is_word(word, "run") && is_word(stats, "--stats") && is_word(option, "--turns") {
                Some(run_with(Form::Counted, turns_in(turns)?))
            } else {
                None
            }
        }
        _ => None,
    }
}

// The same for two words.
fn command_of_two(word: &String, second: &String) -> Option<Command>
    ensures { result ≡ command_of (word.now ∷ second.now ∷ []) }
{
    if is_word(word, "make") {
        return Some(Command::Make(made_in(second)?));
    }
    if is_word(word, "run-made") {
        return Some(Command::RunMade(made_in(second)?));
    }
    let stats = is_word(word, "run") && is_word(second, "--stats");
    stats.then_some(run_with(Form::Counted, DEFAULT_TURNS))
}

fn run_with(form: Form, turns: u32) -> Command
    ensures { result ≡ run_with form turns }
{
    Command::Run(RunOptions { turns, form })
}

fn is_word(word: &String, text: &str) -> bool
    ensures { result ≡ is_word word.now text.now }
{
    word.as_str() == text
}

// The number of turns that a word is.
fn turns_in(word: &String) -> Option<u32>
    ensures { result ≡ turns_in word.now }
{
    number_in(1, MOST_TURNS, word.as_str())
}

// The number of a made set that a word is.
fn made_in(word: &String) -> Option<u32>
    ensures { result ≡ made_in word.now }
{
    number_in(0, MOST_MADE, word.as_str())
}

// The number between these bounds that a text is.
fn number_in(least: u32, most: u32, text: &str) -> Option<u32>
    ensures { result ≡ number_in least most text.now }
{
    if !is_numeral(text.as_bytes()) {
        return None;
    }
    match text.parse::<u32>() {
        Ok(number) => (least <= number && number <= most).then_some(number),
        Err(_) => None,
    }
}

// Whether a text is decimal digits without a zero in front of others.
fn is_numeral(text: &[u8]) -> bool
    ensures { result ≡ is_numeral text.now }
{
    is_unpadded(text) && text.iter().all(|b| b.is_ascii_digit())
}

// Whether a text has a byte, and no zero in front of others.
fn is_unpadded(text: &[u8]) -> bool
    ensures { result ≡ is_unpadded text.now }
{
    text.len() == 1 || text.len() > 1 && text[0] != b'0'
}
