//! The command line, as clap reads it: a command for each thing that the program does.
ghost use Rattle.std.specs.Prelude.{◌≡◌, IfOk, false};
ghost use Rattle.clap.specs.Words.{app_of, rule_of};
ghost use Rattle.st_words.specs.Command.{command_line as the_command_line, flag as flag_of, option as option_of, word as word_of, audit_command, of_one, run_command, top_alone, with_command as with_command_of, with_flag as with_flag_of, with_option as with_option_of, with_budgets as budgets, with_file_commands as file_commands, with_number_commands as number_commands, with_room as room, with_ways as ways};
ghost use Rattle.st_words.specs.Building.{Becomes, IsCommand, IsLocal};

use clap::{Arg, ArgAction, Command};
use std::alloc::{AllocError, Global};

/// The whole command line.
pub(crate) fn command_line<'a>(alloc: Global) -> Result<Command<'a>, AllocError>
    ensures { IfOk result (λ line. app_of line ≡ the_command_line) }
{
    let line = with_file_commands(alloc, top_command(alloc))?;
    let line = with_number_commands(alloc, line)?;
    Ok(line)
}

/// The program, before it has commands: the words are without its name, a command is asked for, and there is no help and no version.
fn top_command<'a>(alloc: Global) -> Command<'a>
    ensures { IsCommand top_alone result }
{
    Command::new(alloc, "strobe")
        .no_binary_name(true)
        .disable_help_flag(true)
        .disable_help_subcommand(true)
        .disable_version_flag(true)
        .subcommand_required(true)
}

/// The commands on files.
fn with_file_commands<'a>(alloc: Global, line: Command<'a>) -> Result<Command<'a>, AllocError>
    ensures { IfOk result (Becomes file_commands line.entry) }
{
    let line = with_command(line, run(alloc)?)?;
    let line = with_command(line, with_word(alloc, "check", "file")?)?;
    let line = with_command(line, audit(alloc)?)?;
    Ok(line)
}

/// The commands on a number.
fn with_number_commands<'a>(alloc: Global, line: Command<'a>) -> Result<Command<'a>, AllocError>
    ensures { IfOk result (Becomes number_commands line.entry) }
{
    let line = with_command(line, with_word(alloc, "gen", "n")?)?;
    let line = with_command(line, with_word(alloc, "demo", "n")?)?;
    Ok(line)
}

/// `run FILE`, with its options and flags.
fn run<'a>(alloc: Global) -> Result<Command<'a>, AllocError>
    ensures { IfOk result (IsCommand run_command) }
{
    let command = with_word(alloc, "run", "file")?;
    let command = with_room(alloc, command)?;
    let command = with_budgets(alloc, command)?;
    let command = with_ways(alloc, command)?;
    Ok(command)
}

/// The options of what a run may keep.
fn with_room<'a>(alloc: Global, command: Command<'a>) -> Result<Command<'a>, AllocError>
    ensures { IfOk result (Becomes room command.entry) }
{
    let command = with_option(alloc, command, "lanes")?;
    let command = with_option(alloc, command, "objects")?;
    let command = with_option(alloc, command, "copies")?;
    Ok(command)
}

/// The options of what a run may spend.
fn with_budgets<'a>(alloc: Global, command: Command<'a>) -> Result<Command<'a>, AllocError>
    ensures { IfOk result (Becomes budgets command.entry) }
{
    let command = with_option(alloc, command, "events")?;
    let command = with_option(alloc, command, "calls")?;
    Ok(command)
}

/// The options of how a run is made, and the flags of what is written.
fn with_ways<'a>(alloc: Global, command: Command<'a>) -> Result<Command<'a>, AllocError>
    ensures { IfOk result (Becomes ways command.entry) }
{
    let command = with_option(alloc, command, "checkers")?;
    let command = with_option(alloc, command, "schedule")?;
    let command = with_flag(alloc, command, "json")?;
    let command = with_flag(alloc, command, "journal")?;
    Ok(command)
}

/// `audit FILE JOURNAL`.
fn audit<'a>(alloc: Global) -> Result<Command<'a>, AllocError>
    ensures { IfOk result (IsCommand audit_command) }
{
    let command = with_word(alloc, "audit", "file")?;
    command.arg(word(alloc, "journal"))
}

/// A command with one word.
fn with_word<'a>(alloc: Global, name: &'a str, first: &'a str) -> Result<Command<'a>, AllocError>
    ensures { IfOk result (IsCommand (of_one name.now first.now)) }
{
    Command::new(alloc, name).arg(word(alloc, first))
}

/// One command more.
fn with_command<'a>(line: Command<'a>, command: Command<'a>) -> Result<Command<'a>, AllocError>
    requires { IsLocal command }
    ensures { IfOk result (Becomes (with_command_of (app_of command.entry)) line.entry) }
{
    line.subcommand(command)
}

/// One option more, which has a value.
fn with_option<'a>(
    alloc: Global,
    command: Command<'a>,
    name: &'a str,
) -> Result<Command<'a>, AllocError>
    ensures { IfOk result (Becomes (with_option_of name.now) command.entry) }
{
    command.arg(option(alloc, name))
}

/// One flag more.
fn with_flag<'a>(
    alloc: Global,
    command: Command<'a>,
    name: &'a str,
) -> Result<Command<'a>, AllocError>
    ensures { IfOk result (Becomes (with_flag_of name.now) command.entry) }
{
    command.arg(flag(alloc, name))
}

/// An option with a value.
fn option<'a>(alloc: Global, name: &'a str) -> Arg<'a>
    ensures rule { rule_of result ≡ option_of name.now }
    ensures local { result.global ≡ false }
{
    Arg::new(alloc, name).long(name).action(ArgAction::Set)
}

/// A flag.
fn flag<'a>(alloc: Global, name: &'a str) -> Arg<'a>
    ensures rule { rule_of result ≡ flag_of name.now }
    ensures local { result.global ≡ false }
{
    Arg::new(alloc, name).long(name).action(ArgAction::SetTrue)
}

/// A word at its place, which must stand.
fn word<'a>(alloc: Global, name: &'a str) -> Arg<'a>
    ensures rule { rule_of result ≡ word_of name.now }
    ensures local { result.global ≡ false }
{
    Arg::new(alloc, name).required(true)
}
