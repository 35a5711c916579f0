//! The names of the commands for texts, and what each takes.
ghost use Rattle.std.specs.Prelude.{◌≡◌};
ghost use Rattle.command_words.specs.Shapes.{rules_of};
ghost use Rattle.text_words.specs.Names.{command_among, rules_of_command, text_named, word_of};

use command_words::Shape;

/// What a command is called.
#[derive(Clone, Copy)]
pub enum TextName {
    Json,
    Bytes,
    Build,
    Split,
    View,
    Diff,
    Shape,
    Why,
}

/// All commands for texts.
const COMMANDS: [TextName; 8] = [
    TextName::Json,
    TextName::Bytes,
    TextName::Build,
    TextName::Split,
    TextName::View,
    TextName::Diff,
    TextName::Shape,
    TextName::Why,
];

impl TextName {
    /// The word that the command is.
    pub fn word(self) -> &'static str
        ensures { result.now ≡ word_of self }
    {
        match self {
            TextName::Json => "json",
            TextName::Bytes => "bytes",
            TextName::Build => "build",
            TextName::Split => "split",
            TextName::View => "view",
            TextName::Diff => "diff",
            TextName::Shape => "shape",
            TextName::Why => "why",
        }
    }

    /// What the command takes.
    pub fn shape(self) -> Shape<'static>
        ensures { rules_of result ≡ rules_of_command self }
    {
        match self {
            TextName::Json => shape(
                "json FORM [--pretty|--shown]",
                &["--pretty", "--shown"],
                &[],
                &["FORM"],
            ),
            TextName::Bytes => shape("bytes FORM", &[], &[], &["FORM"]),
            TextName::Build => shape("build [--snapshot FILE]", &[], &["--snapshot"], &[]),
            TextName::Split => shape("split RECORD SNAPSHOT", &[], &[], &["RECORD", "SNAPSHOT"]),
            TextName::View => shape("view KEY|SIGNATURE", &[], &[], &["KEY|SIGNATURE"]),
            TextName::Diff => shape("diff A B", &[], &[], &["A", "B"]),
            TextName::Shape => shape("shape [--svg FILE]", &[], &["--svg"], &[]),
            TextName::Why => shape("why", &[], &[], &[]),
        }
    }
}

/// A shape of these flags, options and values.
fn shape<'a>(
    usage: &'a str,
    flags: &'a [&'a str],
    options: &'a [&'a str],
    values: &'a [&'a str],
) -> Shape<'a>
    ensures { result ≡ record { flags = flags.entry; options = options.entry; values = values.entry; usage = usage.entry } }
{
    Shape {
        flags,
        options,
        values,
        usage,
    }
}

fn command_among(names: &[TextName], word: &str) -> Option<TextName>
    ensures { result ≡ command_among names.now word.now }
{
    let mut others = names;
    while let [name, after @ ..] = others {
        if name.word() == word {
            return Some(*name);
        }
        others = after;
    }
    None
}

/// The command of this word.
pub fn text_named(word: &str) -> Option<TextName>
    ensures { result ≡ text_named word.now }
{
    command_among(&COMMANDS, word)
}
