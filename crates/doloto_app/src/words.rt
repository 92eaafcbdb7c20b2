ghost use Rattle.std.specs.Prelude.{◌≡◌, length};
ghost use Rattle.std.specs.Option.{option_map};
ghost use Rattle.doloto_app.specs.Words.{is_path, said};
ghost use Rattle.doloto_app.specs.View.{command};

/// What is wrong with the words of a command.
#[derive(Clone, Copy, Debug, PartialEq, Eq)]
pub enum WordFault {
    /// They are no command.
    First,
}

/// Whether a word is a path: neither empty nor begun with `-`.
fn is_path(word: &str) -> bool
    ensures { result ≡ is_path word.now }
{
    match word.as_bytes().first() {
        None => false,
        Some(byte) => *byte != b'-',
    }
}

/// A command, with its paths.
#[derive(Clone, Copy)]
pub enum Command<'a> {
    /// Plays the site of a folder for the page of a file.
    Play { site: &'a str, page: &'a str },
    /// Prints the script of a file.
    Format { script: &'a str },
}

/// `format` and a path.
#[tactic(auto, using(crate::proofs::Counts::two_words))]
fn format_command<'a>(words: &'a [String]) -> Option<Command<'a>>
    requires { length words.now ≡ 2 }
    ensures { option_map command result ≡ said words.now }
{
    let (name, script) = (words[0].as_str(), words[1].as_str());
    if name == "format" && is_path(script) {
        Some(Command::Format { script })
    } else {
        None
    }
}

/// `play` and two paths.
#[tactic(auto, using(crate::proofs::Counts::three_words))]
fn play_command<'a>(words: &'a [String]) -> Option<Command<'a>>
    requires { length words.now ≡ 3 }
    ensures { option_map command result ≡ said words.now }
{
    let (name, site, page) = (words[0].as_str(), words[1].as_str(), words[2].as_str());
    if name == "play" && is_path(site) && is_path(page) {
        Some(Command::Play { site, page })
    } else {
        None
    }
}

/// The command that words say.
#[tactic(auto, using(crate::proofs::Counts::other_words))]
pub fn command_in<'a>(words: &'a [String]) -> Option<Command<'a>>
    ensures { option_map command result ≡ said words.now }
{
    match words.len() {
        2 => format_command(words),
        3 => play_command(words),
        _ => None,
    }
}
