//! From arguments to a command.
ghost use Rattle.std.specs.Prelude.{◌≡◌, IfOk, MatchResult, Some, option_map, map};
ghost use Rattle.std.specs.List.{list_all};
ghost use Rattle.clap.specs.Matches.{found_of};
ghost use Rattle.clap.specs.Values.{kind_of};
ghost use Rattle.bank_words.specs.Numbers.{lanes_in, senders_in, seed_in, count_in};
ghost use Rattle.bank_words.specs.Commands.{command_in, IsInRange};
ghost use Rattle.bank_words.specs.Reading.{Explains, is_plain, produce_found, replay_found, make_found, command_found, fault_of_kind};

use crate::command::{Command, WordsFault};
use crate::command_line::bank_command;
use crate::words::Words;
use clap::error::ErrorKind;
use clap::{ArgMatches, Error};
use command_parts::number_in;
use sol_base::{MAX_LANES, MAX_SENDERS, MAX_TRANSACTIONS};
use std::alloc::Global;

/// The command that the arguments are.
pub fn read_words(alloc: Global, words: &Words) -> Result<Command, WordsFault>
    ensures exact { MatchResult result (λ command. command_in words.now ≡ Some command)
        (λ fault. Explains fault (command_in words.now)) }
    ensures ranges { IfOk result IsInRange }
{
    let texts = words.texts(alloc)?;
    read_texts(alloc, texts.as_slice())
}

fn read_texts<'a>(alloc: Global, words: &'a [&'a str]) -> Result<Command, WordsFault>
    ensures { let texts = map (λ w. w.now) words.entry.now in
        MatchResult result (λ command. command_in texts ≡ Some command)
        (λ fault. Explains fault (command_in texts)) }
{
    if !are_plain(words) {
        return Err(WordsFault::Refused);
    }
    let command = bank_command(alloc)?;
    let matches = match command.try_get_matches_from(words) {
        Ok(matches) => matches,
        Err(error) => return Err(fault_of(&error)),
    };
    match matches.subcommand() {
        Some((name, inner)) => match command_of(name, inner) {
            Some(command) => Ok(command),
            None => Err(WordsFault::Refused),
        },
        None => Err(WordsFault::Refused),
    }
}

fn are_plain(words: &[&str]) -> bool
    ensures { result ≡ list_all (λ w. is_plain w.now) words.now }
{
    words.iter().all(|word| is_plain(word))
}

/// Whether clap reads the argument as an option or as a value. It takes `-`, `--` and `-x` otherwise.
fn is_plain(word: &str) -> bool
    ensures { result ≡ is_plain word.now }
{
    match word.as_bytes() {
        [b'-', b'-', _, ..] => true,
        [b'-', ..] => false,
        _ => true,
    }
}

fn fault_of(error: &Error) -> WordsFault
    ensures { result ≡ fault_of_kind (kind_of error.now) }
{
    match error.kind() {
        ErrorKind::OutOfMemory => WordsFault::OutOfMemory,
        _ => WordsFault::Refused,
    }
}

fn command_of(name: &str, matches: &ArgMatches<'_>) -> Option<Command>
    ensures { result ≡ command_found name.now (found_of matches.now) }
{
    match name {
        "produce" => produce(matches),
        "replay" => replay(matches),
        "show" => Some(Command::Show),
        "make" => make(matches),
        "asm" => Some(Command::Assemble),
        "list" => Some(Command::List),
        _ => None,
    }
}

fn produce(matches: &ArgMatches<'_>) -> Option<Command>
    ensures { result ≡ produce_found (found_of matches.now) }
{
    Some(Command::Produce {
        lanes: lanes_in(matches.get_str("lanes"))?,
        senders: senders_in(matches.get_str("senders"))?,
    })
}

fn replay(matches: &ArgMatches<'_>) -> Option<Command>
    ensures { result ≡ replay_found (found_of matches.now) }
{
    Some(Command::Replay {
        lanes: lanes_in(matches.get_str("lanes"))?,
    })
}

fn make(matches: &ArgMatches<'_>) -> Option<Command>
    ensures { result ≡ make_found (found_of matches.now) }
{
    Some(Command::Make {
        number: seed_in(matches.get_str("number"))?,
        count: count_in(matches.get_str("count"))?,
        run: matches.get_str("run") == Some("true"),
        lanes: lanes_in(matches.get_str("lanes"))?,
    })
}

fn lanes_in(text: Option<&str>) -> Option<u32>
    ensures { result ≡ lanes_in (option_map (λ t. t.now) text.entry) }
{
    match text {
        Some(text) => Some(number_in(1, u64::from(MAX_LANES), text)? as u32),
        None => Some(1),
    }
}

fn senders_in(text: Option<&str>) -> Option<u32>
    ensures { result ≡ senders_in (option_map (λ t. t.now) text.entry) }
{
    match text {
        Some(text) => Some(number_in(1, u64::from(MAX_SENDERS), text)? as u32),
        None => Some(1),
    }
}

fn count_in(text: Option<&str>) -> Option<u32>
    ensures { result ≡ count_in (option_map (λ t. t.now) text.entry) }
{
    Some(number_in(1, MAX_TRANSACTIONS as u64, text?)? as u32)
}

fn seed_in(text: Option<&str>) -> Option<u64>
    ensures { result ≡ seed_in (option_map (λ t. t.now) text.entry) }
{
    number_in(0, u64::MAX, text?)
}
