//! Laws of the arguments of commands. Their calls do nothing.
ghost use Rattle.std.specs.Prelude.{◌≡◌, List, Some};
ghost use Rattle.bank_words.specs.Options.{Text};
ghost use Rattle.bank_words.specs.Commands.{command_in};
ghost use Rattle.bank_words.specs.Spelling.{IsSpelled};
ghost use Rattle.bank_words.specs.declared.command.Command.{Command as CommandValue};

/// A law: arguments that spell a command, with each option at most once, in any order and in both
/// forms, are that command, and only those arguments are.
pub fn commands_are_their_spellings()
    ensures spelled { (words : List Text) (command : CommandValue) → IsSpelled words command
        → command_in words ≡ Some command }
    ensures only { (words : List Text) (command : CommandValue) → command_in words ≡ Some command
        → IsSpelled words command }
{}
