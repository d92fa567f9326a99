//! Which words ask for help.
ghost use Rattle.std.specs.Prelude.{◌≡◌, map};
ghost use Rattle.std.specs.Bool.{OnTrue};
ghost use Rattle.std.specs.String.{string_bytes};
ghost use Rattle.command_line.specs.Help.{asks_for_help, AskForHelp};

/// Whether one of the words asks for help or for the version.
pub(crate) fn ask_for_help(words: &[String]) -> bool
    ensures { OnTrue result (AskForHelp (map string_bytes words.now)) }
{
    for word in words {
        if asks_for_help(word) {
            return true;
        }
    }
    false
}

// Whether a word does: behind the letter of an option others may stand.
fn asks_for_help(word: &str) -> bool
    ensures { result ≡ asks_for_help word.now }
{
    *word == *"help"
        || *word == *"--help"
        || *word == *"--version"
        || word.as_bytes().starts_with(b"-h")
        || word.as_bytes().starts_with(b"-V")
}
