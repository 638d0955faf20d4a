//! Laws about the words of a command, each the contract of an empty function.

ghost use Rattle.std.specs.Prelude.{◌≡◌, List, is_some};
ghost use Rattle.clap.specs.Words.{Text};
ghost use Rattle.command_words.specs.Commands.{accepts, command_of};

/// Words that are accepted are those of one command: what it needs stands there.
pub fn accepted_words_are_a_command()
    ensures { (words : List Text) → is_some (command_of words) ≡ accepts words }
{}
