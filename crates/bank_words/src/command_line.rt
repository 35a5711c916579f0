//! The commands as the command line parser knows them.
ghost use Rattle.std.specs.Prelude.{◌≡◌, IfOk, false};
ghost use Rattle.clap.specs.Simple.{app_of, with_rule};
ghost use Rattle.clap.specs.declared.Command.TheViews.{out-Command as fields_of};
ghost use Rattle.bank_words.specs.CommandLine.{bank_app, flag_rule, make_app, produce_app, replay_app, block_commands_app, top_app, value_rule, with_simple};

use clap::{Arg, ArgAction, Command};
use std::alloc::{AllocError, Global};

/// The command with one more option, which takes a value.
fn with_value<'a>(
    alloc: Global,
    command: Command<'a>,
    name: &'a str,
) -> Result<Command<'a>, AllocError>
    ensures app { IfOk result
        (λ c. app_of c ≡ with_rule (app_of command.entry) (value_rule name.entry.now)) }
    ensures local { (fields_of command.entry).has_globals ≡ false
        → IfOk result (λ c. (fields_of c).has_globals ≡ false) }
{
    command.arg(Arg::new(alloc, name).long(name))
}

/// The command with one more option, which takes none.
fn with_flag<'a>(
    alloc: Global,
    command: Command<'a>,
    name: &'a str,
) -> Result<Command<'a>, AllocError>
    ensures app { IfOk result
        (λ c. app_of c ≡ with_rule (app_of command.entry) (flag_rule name.entry.now)) }
    ensures local { (fields_of command.entry).has_globals ≡ false
        → IfOk result (λ c. (fields_of c).has_globals ≡ false) }
{
    let flag = Arg::new(alloc, name).long(name).action(ArgAction::SetTrue);
    command.arg(flag)
}

fn produce_command<'a>(alloc: Global) -> Result<Command<'a>, AllocError>
    ensures app { IfOk result (λ c. app_of c ≡ produce_app) }
    ensures local { IfOk result (λ c. (fields_of c).has_globals ≡ false) }
{
    let command = with_value(alloc, Command::new(alloc, "produce"), "lanes")?;
    with_value(alloc, command, "senders")
}

fn replay_command<'a>(alloc: Global) -> Result<Command<'a>, AllocError>
    ensures app { IfOk result (λ c. app_of c ≡ replay_app) }
    ensures local { IfOk result (λ c. (fields_of c).has_globals ≡ false) }
{
    with_value(alloc, Command::new(alloc, "replay"), "lanes")
}

fn make_command<'a>(alloc: Global) -> Result<Command<'a>, AllocError>
    ensures app { IfOk result (λ c. app_of c ≡ make_app) }
    ensures local { IfOk result (λ c. (fields_of c).has_globals ≡ false) }
{
    let command = with_value(alloc, Command::new(alloc, "make"), "number")?;
    let command = with_value(alloc, command, "count")?;
    let command = with_value(alloc, command, "lanes")?;
    with_flag(alloc, command, "run")
}

/// The command with one more subcommand.
fn with<'a>(command: Command<'a>, subcommand: Command<'a>) -> Result<Command<'a>, AllocError>
    requires { (fields_of subcommand).has_globals ≡ false }
    ensures { IfOk result
        (λ c. app_of c ≡ with_simple (app_of command.entry) (app_of subcommand.entry)) }
{
    command.subcommand(subcommand)
}

fn top_command<'a>(alloc: Global) -> Command<'a>
    ensures { app_of result ≡ top_app }
{
    Command::new(alloc, "bank")
        .no_binary_name(true)
        .disable_help_flag(true)
        .disable_help_subcommand(true)
        .subcommand_required(true)
}

fn with_block_commands<'a>(alloc: Global) -> Result<Command<'a>, AllocError>
    ensures { IfOk result (λ c. app_of c ≡ block_commands_app) }
{
    let top = with(top_command(alloc), produce_command(alloc)?)?;
    let top = with(top, replay_command(alloc)?)?;
    with(top, Command::new(alloc, "show"))
}

/// The program's command line: one level of subcommands.
pub(crate) fn bank_command<'a>(alloc: Global) -> Result<Command<'a>, AllocError>
    ensures { IfOk result (λ c. app_of c ≡ bank_app) }
{
    let top = with(with_block_commands(alloc)?, make_command(alloc)?)?;
    let top = with(top, Command::new(alloc, "asm"))?;
    with(top, Command::new(alloc, "list"))
}
