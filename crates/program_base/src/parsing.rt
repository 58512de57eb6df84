// SPDX-License-Identifier: MIT OR Apache-2.0
ghost use Rattle.std.specs.Prelude.{◌≡◌, ◌≢◌, false, IfOk, option_map, string_bytes};
ghost use Rattle.clap.specs.Words.{app_of, new_rule, rule_of, subcommand_of};
ghost use Rattle.clap.specs.Words.{subcommand_rows_of};
ghost use Rattle.clap.specs.declared.builder.command.Command.TheViews.{out-Command as fields_of};
ghost use Rattle.clap.specs.declared.error.Error.{Error as Complaint};
ghost use Rattle.program_base.specs.CommandLine.{bsc, program, run_command, replay_command};
ghost use Rattle.program_base.specs.CommandLine.{decode_command, AreTaken, AreRefused, IsTask};
ghost use Rattle.program_base.specs.CommandLine.{texts};
ghost use Rattle.program_base.specs.declared.no_task.NoTask.TheVariants.{Refused};
ghost use Rattle.program_base.specs.declared.words.TaskFault.TheVariants.{Words};

use crate::no_task::{NoTask, answered};
use crate::words::{Task, TaskFault};
use clap::{Arg, ArgMatches, Command};
use std::alloc::{AllocError, Global};

/// The command line of the program.
fn command<'a>(alloc: Global) -> Result<Command<'a>, AllocError>
    ensures { IfOk result (λ command. app_of command ≡ bsc) }
{
    let command = program(alloc).subcommand(run(alloc)?)?;
    let command = command.subcommand(replay(alloc)?)?;
    command.subcommand(decode(alloc))
}

/// The command line of the program without its subcommands. A subcommand is required.
fn program<'a>(alloc: Global) -> Command<'a>
    ensures app { app_of result ≡ program }
    ensures local { (fields_of result).has_globals ≡ false }
{
    Command::new(alloc, "bsc")
        .no_binary_name(true)
        .subcommand_required(true)
}

/// The subcommand `decode`.
fn decode<'a>(alloc: Global) -> Command<'a>
    ensures app { app_of result ≡ decode_command }
    ensures local { (fields_of result).has_globals ≡ false }
{
    Command::new(alloc, "decode")
}

/// The subcommand `run --config FILE`.
fn run<'a>(alloc: Global) -> Result<Command<'a>, AllocError>
    ensures app { IfOk result (λ command. app_of command ≡ run_command) }
    ensures local { IfOk result (λ command. (fields_of command).has_globals ≡ false) }
{
    Command::new(alloc, "run").arg(option(alloc, "config").required(true))
}

/// The subcommand `replay [--config FILE] [--break N]`.
fn replay<'a>(alloc: Global) -> Result<Command<'a>, AllocError>
    ensures app { IfOk result (λ command. app_of command ≡ replay_command) }
    ensures local { IfOk result (λ command. (fields_of command).has_globals ≡ false) }
{
    Command::new(alloc, "replay")
        .arg(option(alloc, "config"))?
        .arg(option(alloc, "break"))
}

/// An option that takes a value and whose long name is `name`.
pub(crate) fn option<'a>(alloc: Global, name: &'a str) -> Arg<'a>
    ensures rule { rule_of result
        ≡ record (new_rule name.entry.now) { long = Some name.entry.now } }
    ensures local { result.global ≡ false }
{
    Arg::new(alloc, name).long(name)
}

/// What `clap` finds in the words. `Refused` only if `clap` refuses the words.
fn matches_of<'a>(alloc: Global, words: &'a [&'a str]) -> Result<ArgMatches<'a>, NoTask>
    ensures taken { IfOk result (λ _. AreTaken (texts words.entry.now)) }
    ensures found { IfOk result (λ matches.
        subcommand_rows_of matches ≡ subcommand_of bsc (texts words.entry.now)) }
    ensures refused { (complaint : Complaint) → result ≡ Err (Refused complaint)
        → AreRefused (texts words.entry.now) }
{
    let command = command(alloc)?;
    match command.try_get_matches_from(words) {
        Ok(matches) => Ok(matches),
        Err(error) => Err(NoTask::from(error)),
    }
}

/// Reads the words after the program's name. The task is the subcommand that `clap` finds, with the
/// values of its options. `Words` only if `clap` refuses the words; `Memory` on allocation failure.
pub fn task<'a>(alloc: Global, words: &'a [&'a str]) -> Result<Task, TaskFault>
    ensures taken { IfOk result (λ _. AreTaken (texts words.entry.now)) }
    ensures found { IfOk result (λ task. IsTask task (subcommand_of bsc (texts words.entry.now))) }
    ensures words { result ≡ Err Words → AreRefused (texts words.entry.now) }
{
    answered(found_task(alloc, words))
}

/// The task that the words after the program's name ask for, or `clap`'s complaint.
pub(crate) fn found_task<'a>(alloc: Global, words: &'a [&'a str]) -> Result<Task, NoTask>
    ensures taken { IfOk result (λ _. AreTaken (texts words.entry.now)) }
    ensures found { IfOk result (λ task. IsTask task (subcommand_of bsc (texts words.entry.now))) }
    ensures refused { (complaint : Complaint) → result ≡ Err (Refused complaint)
        → AreRefused (texts words.entry.now) }
{
    let matches = matches_of(alloc, words)?;
    let Some((name, options)) = matches.subcommand() else {
        unreachable!()
    };
    match name {
        "run" => {
            let settings = options.get_str("config").unwrap_or("");
            Ok(Task::Run(String::from_str(alloc, settings)?))
        }
        "replay" => {
            let settings = copy_of(alloc, options.get_str("config"))?;
            let breaks = copy_of(alloc, options.get_str("break"))?;
            Ok(Task::Replay(settings, breaks))
        }
        "decode" => Ok(Task::Decode),
        _ => unreachable!(),
    }
}

/// A copy of a text, if there is one.
pub(crate) fn copy_of(alloc: Global, text: Option<&str>) -> Result<Option<String>, AllocError>
    ensures { IfOk result (λ copy.
        option_map (λ copy. string_bytes copy) copy ≡ option_map (λ text. text.now) text.entry) }
{
    match text {
        Some(text) => Ok(Some(String::from_str(alloc, text)?)),
        None => Ok(None),
    }
}
