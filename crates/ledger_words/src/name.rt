//! The names of the commands for chains, and what each takes.
ghost use Rattle.std.specs.Prelude.{◌≡◌, map};
ghost use Rattle.command_words.specs.Shapes.{rules_of};
ghost use Rattle.ledger_words.specs.Names.{command_among, command_named, options_of, rules_of_command, word_of};

use command_words::Shape;

/// What a command is called.
#[derive(Clone, Copy, PartialEq, Eq)]
pub enum CommandName {
    New,
    Add,
    State,
    Block,
    Check,
    List,
    Export,
}

/// All commands that have a folder.
const COMMANDS: [CommandName; 7] = [
    CommandName::New,
    CommandName::Add,
    CommandName::State,
    CommandName::Block,
    CommandName::Check,
    CommandName::List,
    CommandName::Export,
];

impl CommandName {
    /// The word that the command is.
    pub fn word(self) -> &'static str
        ensures { result.now ≡ word_of self }
    {
        match self {
            CommandName::New => "new",
            CommandName::Add => "add",
            CommandName::State => "state",
            CommandName::Block => "block",
            CommandName::Check => "check",
            CommandName::List => "list",
            CommandName::Export => "export",
        }
    }

    /// The options of the command.
    fn options(self) -> &'static [&'static str]
        ensures { map (λ n. n.now) result.now ≡ options_of self }
    {
        match self {
            CommandName::New => &["--every"],
            CommandName::Add => &["--lanes", "--senders"],
            CommandName::State | CommandName::Block => &["--slot"],
            CommandName::Check => &["--from", "--to", "--jobs"],
            CommandName::List => &[],
            CommandName::Export => &["--sqlite"],
        }
    }

    /// How the command is written.
    fn usage(self) -> &'static str {
        match self {
            CommandName::New => "chain new DIR [--every K]",
            CommandName::Add => "chain add DIR [--lanes N] [--senders M]",
            CommandName::State => "chain state DIR [--slot S]",
            CommandName::Block => "chain block DIR --slot S",
            CommandName::Check => "chain check DIR [--from S] [--to S] [--jobs J]",
            CommandName::List => "chain list DIR",
            CommandName::Export => "chain export DIR --sqlite FILE",
        }
    }

    /// What the command takes: its options and its folder.
    pub fn shape(self) -> Shape<'static>
        ensures { rules_of result ≡ rules_of_command self }
    {
        Shape {
            flags: &[],
            options: self.options(),
            values: &["DIR"],
            usage: self.usage(),
        }
    }
}

fn command_among(names: &[CommandName], word: &str) -> Option<CommandName>
    ensures { result ≡ command_among names.now word.now }
{
    let mut others = names;
    while let [name, after @ ..] = others {
        if name.word() == word {
            return Some(*name);
        }
        others = after;
    }
    None
}

/// The command of this word, among those that have a folder.
pub fn command_named(word: &str) -> Option<CommandName>
    ensures { result ≡ command_named word.now }
{
    command_among(&COMMANDS, word)
}
