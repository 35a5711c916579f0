//! Arguments in form in both spellings and any order, and arguments that are refused.
use bank_words::{Command, Words, WordsFault, read_words};
use sol_base::{Blob, Items};
use std::alloc::Global;
use std::test::Fail;

/// The arguments of a line, parted by single spaces.
pub fn words_of(alloc: Global, line: &str) -> Result<Words, Fail> {
    let mut words = Items::new(alloc);
    for word in line.split(' ') {
        words.push(Blob::from_slice(alloc, word.as_bytes())?)?;
    }
    Ok(Words::from_items(words).ok_or("a word is no text")?)
}

/// Arguments in form.
const FORMS: [(&str, Command); 11] = [
    (
        "produce",
        Command::Produce {
            lanes: 1,
            senders: 1,
        },
    ),
    (
        "produce --lanes 3",
        Command::Produce {
            lanes: 3,
            senders: 1,
        },
    ),
    (
        "produce --lanes=64 --senders=8",
        Command::Produce {
            lanes: 64,
            senders: 8,
        },
    ),
    (
        "produce --senders 2 --lanes=007",
        Command::Produce {
            lanes: 7,
            senders: 2,
        },
    ),
    ("replay", Command::Replay { lanes: 1 }),
    (
        "replay --lanes 00000000000000000002",
        Command::Replay { lanes: 2 },
    ),
    ("show", Command::Show),
    (
        "make --number 18446744073709551615 --count=16384",
        Command::Make {
            number: u64::MAX,
            count: 16_384,
            run: false,
            lanes: 1,
        },
    ),
    (
        "make --run --lanes=2 --count 1 --number=0",
        Command::Make {
            number: 0,
            count: 1,
            run: true,
            lanes: 2,
        },
    ),
    ("asm", Command::Assemble),
    ("list", Command::List),
];

/// Whether the line is read as the command.
fn is_command(alloc: Global, line: &str, command: Command) -> Result<bool, Fail> {
    let words = words_of(alloc, line)?;
    Ok(read_words(alloc, &words) == Ok(command))
}

#[test]
fn words_in_form_are_read(rt: HostRuntime) -> Result<(), Fail> {
    for (line, command) in FORMS {
        assert!(rt; is_command(rt.alloc(), line, command)?);
    }
    Ok(())
}

/// Arguments that are not in form.
const OTHERS: [&str; 39] = [
    "",
    "help",
    "--help",
    "-h",
    "produce --help",
    "help produce",
    "Produce",
    "produce show",
    "--lanes 1 produce",
    "produce --",
    "produce -",
    "produce -lanes 1",
    "produce lanes 1",
    "produce --lane 1",
    "produce --lanes",
    "produce --lanes=",
    "produce --lanes --senders 1",
    "produce --lanes=1 --lanes=1",
    "produce --lanes 1 --lanes=1",
    "produce --lanes 0",
    "produce --lanes 65",
    "produce --senders 0",
    "produce --senders=9",
    "replay --senders 1",
    "replay --lanes +1",
    "replay --lanes=-1",
    "replay --lanes 1a",
    "replay --lanes 000000000000000000001",
    "show --lanes 1",
    "make --number 1",
    "make --count 1",
    "make --number 18446744073709551616 --count 1",
    "make --number 1 --count 0",
    "make --number 1 --count 16385",
    "make --number 1 --count 1 --run=1",
    "make --number 1 --count 1 --run true",
    "make --number 1 --count 1 --run --run",
    "asm x",
    "list --lanes 1",
];

/// Whether the arguments are refused.
fn are_refused(alloc: Global, words: &Words) -> bool {
    read_words(alloc, words) == Err(WordsFault::Refused)
}

/// Whether the line is refused.
fn is_refused(alloc: Global, line: &str) -> Result<bool, Fail> {
    let words = words_of(alloc, line)?;
    Ok(are_refused(alloc, &words))
}

#[test]
fn other_words_are_refused(rt: HostRuntime) -> Result<(), Fail> {
    for line in OTHERS {
        assert!(rt; is_refused(rt.alloc(), line)?);
    }
    Ok(())
}

#[test]
fn no_words_are_refused(rt: HostRuntime) -> Result<(), Fail> {
    let none = Words::from_items(Items::new(rt.alloc())).ok_or("no word is no text")?;
    assert!(rt; are_refused(rt.alloc(), &none));
    Ok(())
}

/// Whether the words `produce` and one byte are texts.
fn are_texts(alloc: Global, byte: u8) -> Result<bool, Fail> {
    let mut words = Items::new(alloc);
    words.push(Blob::from_slice(alloc, b"produce")?)?;
    words.push(Blob::from_slice(alloc, &[byte])?)?;
    Ok(Words::from_items(words).is_some())
}

#[test]
fn a_word_that_is_no_text(rt: HostRuntime) -> Result<(), Fail> {
    assert!(rt; are_texts(rt.alloc(), b'x')?);
    assert!(rt; !are_texts(rt.alloc(), 0xff)?);
    Ok(())
}
