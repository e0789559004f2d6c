// The words of a command.
ghost use Rattle.std.specs.Prelude.{◌≡◌, map, string_bytes};
ghost use Rattle.std.specs.Option.{option_map};
ghost use Rattle.nagini_cli.specs.Commands as commands;
ghost use Rattle.nagini_cli.specs.Commands.{command_in, command_of};

/// What the words ask for.
#[derive(Clone, Copy, Debug, Drop)]
pub enum Command<'a> {
    /// A check of a file.
    Check(&'a str),
    /// A run of a file under the schedule in another.
    Run(&'a str, &'a str),
}

/// The command that the words are, if they are one.
pub fn read_command(words: &[String]) -> Option<Command<'_>>
    ensures { option_map command_in result ≡ command_of (map string_bytes words.now) }
{
    match words {
        [word, file] if is_check(word, file) => Some(Command::Check(file)),
        [word, file, schedule] if is_run(word, file, schedule) => {
            Some(Command::Run(file, schedule))
        }
        _ => None,
    }
}

// Whether the words are `check FILE`.
fn is_check(word: &str, file: &str) -> bool
    ensures { result ≡ commands.is_check word.now file.now }
{
    if word == "check" {
        is_file(file.as_bytes())
    } else {
        false
    }
}

// Whether the words are `run FILE SCHEDULE`.
fn is_run(word: &str, file: &str, schedule: &str) -> bool
    ensures { result ≡ commands.is_run word.now file.now schedule.now }
{
    if word != "run" {
        return false;
    }
    if is_file(file.as_bytes()) {
        is_file(schedule.as_bytes())
    } else {
        false
    }
}

// Whether a word may name a file.
fn is_file(word: &[u8]) -> bool
    ensures { result ≡ commands.is_file word.now }
{
    match word {
        [] => false,
        [first, ..] => *first != b'-',
    }
}
