//! The words behind the program's name.
ghost use Rattle.std.specs.Prelude.{◌≡◌, ◌↔◌, true, false, Some, None};
ghost use Rattle.ids_server.specs.Words.{is_run, is_init, is_command};

/// What the words ask for.
#[derive(Clone, Copy, Debug, Drop, PartialEq, Eq)]
pub enum Command {
    /// To run a script.
    Run,
    /// To format the disk.
    Init,
}

/// The command that the words are: `run` or `init`, alone.
pub fn command_of(words: &[String]) -> Option<Command>
    ensures run { (result ≡ Some Command.Run) ↔ (is_run words.now ≡ true) }
    ensures init { (result ≡ Some Command.Init) ↔ (is_init words.now ≡ true) }
    ensures none { (result ≡ None) ↔ (is_command words.now ≡ false) }
{
    match words {
        [word] if word.as_str() == "run" => Some(Command::Run),
        [word] if word.as_str() == "init" => Some(Command::Init),
        _ => None,
    }
}
