ghost use Rattle.std.specs.Prelude.{◌≡◌};
ghost use Rattle.altroute_program.specs.Commands.{is_word, shown, shown_as, written, command_of};

use crate::WholeCommand;
use alt_base::{Text, Words};

/// What the words of the command line ask for.
#[derive(Clone, Copy, Debug, PartialEq, Eq)]
pub enum Command {
    /// Reads event lines and writes the lines of their actions.
    Replay,
    /// Reads the octets of HTTP/2 frames and writes a line for each frame.
    ShowFrames,
    /// Reads one value, to the end of the input, and writes it in another form.
    Whole(WholeCommand),
}

// Whether a word is this one.
fn is_word(word: &Text, this: &[u8]) -> bool
    ensures { result ≡ is_word word.now this.now }
{
    word.as_slice() == this
}

// What `show` and one more word ask for.
fn shown(what: &Text) -> Option<Command>
    ensures { result ≡ shown what.now }
{
    if is_word(what, b"altsvc") {
        Some(Command::Whole(WholeCommand::ShowAltSvc))
    } else if is_word(what, b"frames") {
        Some(Command::ShowFrames)
    } else if is_word(what, b"https") {
        Some(Command::Whole(WholeCommand::ShowHttps))
    } else {
        None
    }
}

// What `show` and two more words ask for.
fn shown_as(what: &Text, form: &Text) -> Option<Command>
    ensures { result ≡ shown_as what.now form.now }
{
    if is_word(what, b"https") && is_word(form, b"--json") {
        Some(Command::Whole(WholeCommand::ShowHttpsJson))
    } else {
        None
    }
}

// What `write` and one more word ask for.
fn written(what: &Text) -> Option<Command>
    ensures { result ≡ written what.now }
{
    if is_word(what, b"https") {
        Some(Command::Whole(WholeCommand::WriteHttps))
    } else {
        None
    }
}

/// The command that some words are, if they are one.
pub fn command_of(words: &Words) -> Option<Command>
    ensures { result ≡ command_of words.now }
{
    match words.as_slice() {
        [word] => {
            if is_word(word, b"replay") {
                Some(Command::Replay)
            } else {
                None
            }
        }
        [word, what] => {
            if is_word(word, b"show") {
                shown(what)
            } else if is_word(word, b"write") {
                written(what)
            } else {
                None
            }
        }
        [word, what, form] => {
            if is_word(word, b"show") {
                shown_as(what, form)
            } else {
                None
            }
        }
        _ => None,
    }
}
