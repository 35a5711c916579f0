//! What is said of wrong arguments.
ghost use Rattle.std.specs.Prelude.{◌≡◌, IfOk};
ghost use Rattle.command_words.specs.Answers.{refused};

use crate::fault::WordsFault;
use crate::shape::Shape;
use command_parts::{Answer, WORDS_REFUSED, path_of};
use sol_base::{Blob, OutOfMemory};
use std::alloc::Global;

/// What is before a character, or all where it is not there.
fn before(text: &str, end: char) -> &str {
    text.split_once(end).map_or(text, |parts| parts.0)
}

/// The name of an option's value in the usage; nothing where the option has none, or where it is no option.
fn value_name<'a>(usage: &'a str, name: &str) -> &'a str {
    if !name.starts_with("--") {
        return "";
    }
    let Some((_, behind)) = usage.split_once(name) else {
        return "";
    };
    match behind.split_once(' ') {
        Some(("", value)) => before(before(before(value, ' '), ']'), '|'),
        _ => "",
    }
}

/// Adds a name, behind which stands that of its value.
fn add_name(text: &mut String, usage: &str, name: &str) -> Result<(), OutOfMemory> {
    text.push_str(name)?;
    let value = value_name(usage, name);
    if !value.is_empty() {
        text.push_str(" ")?;
        text.push_str(value)?;
    }
    Ok(())
}

/// The options of a command with their values, one behind the other.
fn options_text(alloc: Global, shape: &Shape<'_>) -> Result<String, OutOfMemory> {
    let mut text = String::new(alloc);
    for names in [shape.flags, shape.options] {
        for name in names {
            if !text.is_empty() {
                text.push_str(", ")?;
            }
            add_name(&mut text, shape.usage, name)?;
        }
    }
    if text.is_empty() {
        text.push_str("none")?;
    }
    Ok(text)
}

/// What is wrong with the arguments of a command, in a sentence.
pub fn fault_text(
    alloc: Global,
    command: &str,
    shape: &Shape<'_>,
    fault: &WordsFault,
) -> Result<String, OutOfMemory> {
    let text = match fault {
        WordsFault::Command => format!(in alloc; "there is no command `{command}`")?,
        WordsFault::Unknown { name } => {
            let options = options_text(alloc, shape)?;
            let name = path_of(name);
            format!(in alloc; "`{command}` has no option {name}; it has {options}")?
        }
        WordsFault::Missing { name } => {
            let mut wanted = String::new(alloc);
            add_name(&mut wanted, shape.usage, path_of(name))?;
            format!(in alloc; "`{command}` needs {wanted}")?
        }
        WordsFault::Surplus { word } => {
            let word = path_of(word);
            format!(in alloc; "`{command}` takes no further argument: {word}")?
        }
        _ => value_text(alloc, fault)?,
    };
    Ok(text)
}

/// What is wrong with one argument.
fn value_text(alloc: Global, fault: &WordsFault) -> Result<String, OutOfMemory> {
    let text = match fault {
        WordsFault::Repeated { name } => {
            let name = path_of(name);
            format!(in alloc; "{name} is given twice")?
        }
        WordsFault::NoValue { name } => {
            let name = path_of(name);
            format!(in alloc; "{name} wants a value")?
        }
        WordsFault::Valued { name } => {
            let name = path_of(name);
            format!(in alloc; "{name} takes no value")?
        }
        WordsFault::Range {
            name,
            low,
            high,
            value,
        } => {
            let name = path_of(name);
            let value = path_of(value);
            format!(in alloc; "{name} is {low} to {high}, and not {value}")?
        }
        WordsFault::Path { name } => {
            let name = path_of(name);
            format!(in alloc; "{name} is empty, or begins with a hyphen, which is written ./-NAME")?
        }
        WordsFault::Form { name, value } => {
            let name = path_of(name);
            let value = path_of(value);
            format!(in alloc; "{value} is no {name}")?
        }
        WordsFault::Excluded { name } => {
            let name = path_of(name);
            format!(in alloc; "{name} and the other option exclude each other")?
        }
        _ => return Err(OutOfMemory),
    };
    Ok(text)
}

/// The answer to wrong arguments: a line with what is wrong, and how commands are written.
pub fn refused(alloc: Global, part: &str, text: &str, usage: &str) -> Result<Answer, OutOfMemory>
    ensures { IfOk result (λ told. told ≡ refused part.now text.now usage.now) }
{
    let mut notes = Blob::from_slice(alloc, part.as_bytes())?;
    notes.append(b": ")?;
    notes.append(text.as_bytes())?;
    notes.append(b"\n")?;
    notes.append(usage.as_bytes())?;
    Ok(Answer {
        status: WORDS_REFUSED,
        output: Blob::new(alloc),
        notes,
    })
}
