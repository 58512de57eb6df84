// SPDX-License-Identifier: MIT OR Apache-2.0
//! The command lines of the tools: `trace`, `judge` and `decode --long`.
ghost use Rattle.std.specs.Prelude.{◌≡◌, ◌≢◌, [], Err, IfOk, Some, false, option_map, true};
ghost use Rattle.std.specs.Prelude.{codes};
ghost use Rattle.clap.specs.Words.{app_of, fault_of, found_of, matches_of};
ghost use Rattle.clap.specs.Words.{rows_of, rule_of};
ghost use Rattle.clap.specs.declared.builder.command.Command.TheViews.{out-Command as fields_of};
ghost use Rattle.clap.specs.declared.error.Error.{Error as Complaint};
ghost use Rattle.program_base.specs.CommandLine.{texts};
ghost use Rattle.program_base.specs.ToolLine.{AreNoTool, IsJudge, IsTool, IsTrace};
ghost use Rattle.program_base.specs.ToolLine.{behind_decode, behind_judge, behind_trace};
ghost use Rattle.program_base.specs.ToolLine.{chart_option, flag, judge_command, long_command};
ghost use Rattle.program_base.specs.ToolLine.{tool_program, trace_command};
ghost use Rattle.program_base.specs.declared.no_task.NoTask.TheVariants.{Refused};
ghost use Rattle.program_base.specs.declared.words.TaskFault.TheVariants.{Words};
ghost use Rattle.program_base.specs.declared.words.Tool.TheVariants.{DecodeLong};

use crate::no_task::NoTask;
use crate::parsing::{copy_of, option};
use crate::words::{TaskFault, Tool};
use clap::{Arg, ArgAction, ArgMatches, Command};
use std::alloc::{AllocError, Global};

/// The command `trace` with its options.
fn trace_command<'a>(alloc: Global) -> Result<Command<'a>, AllocError>
    ensures { IfOk result (λ command. app_of command ≡ trace_command) }
{
    tool_program(alloc, "bsc trace")
        .arg(option(alloc, "config").required(true))?
        .arg(flag(alloc, "strict"))?
        .arg(chart_option(alloc))?
        .arg(option(alloc, "capture"))
}

/// The command `judge` with its options.
fn judge_command<'a>(alloc: Global) -> Result<Command<'a>, AllocError>
    ensures { IfOk result (λ command. app_of command ≡ judge_command) }
{
    tool_program(alloc, "bsc judge")
        .arg(option(alloc, "settings"))?
        .arg(flag(alloc, "strict"))?
        .arg(flag(alloc, "tap"))
}

/// The command `decode` with its option `--long`.
fn long_command<'a>(alloc: Global) -> Result<Command<'a>, AllocError>
    ensures { IfOk result (λ command. app_of command ≡ long_command) }
{
    tool_program(alloc, "bsc decode").arg(flag(alloc, "long"))
}

/// The command of a tool without the tool's options.
fn tool_program<'a>(alloc: Global, name: &'a str) -> Command<'a>
    ensures app { app_of result ≡ tool_program name.entry.now }
    ensures local { (fields_of result).has_globals ≡ false }
{
    Command::new(alloc, name).no_binary_name(true)
}

/// An option without a value.
fn flag<'a>(alloc: Global, name: &'a str) -> Arg<'a>
    ensures rule { rule_of result ≡ flag name.entry.now }
    ensures local { result.global ≡ false }
{
    option(alloc, name).action(ArgAction::SetTrue)
}

/// `--chart[=FORM]`. Without FORM, the form is `text`.
fn chart_option<'a>(alloc: Global) -> Arg<'a>
    ensures rule { rule_of result ≡ chart_option }
    ensures local { result.global ≡ false }
{
    option(alloc, "chart")
        .num_args(0..=1)
        .default_missing_value("text")
}

/// What `clap` finds in the words after `trace`. `Refused` only if `clap` refuses the words.
fn trace_matches<'a>(alloc: Global, options: &'a [&'a str]) -> Result<ArgMatches<'a>, NoTask>
    ensures taken { IfOk result (λ _. fault_of trace_command (texts options.entry.now) ≡ []) }
    ensures found { IfOk result (λ matches.
        rows_of (found_of matches) ≡ matches_of trace_command (texts options.entry.now)) }
    ensures refused { (complaint : Complaint) → result ≡ Err (Refused complaint)
        → fault_of trace_command (texts options.entry.now) ≢ [] }
{
    let command = trace_command(alloc)?;
    match command.try_get_matches_from(options) {
        Ok(matches) => Ok(matches),
        Err(error) => Err(NoTask::from(error)),
    }
}

/// The tool that the words after `trace` ask for, or `clap`'s complaint.
pub(crate) fn found_trace<'a>(alloc: Global, options: &'a [&'a str]) -> Result<Tool, NoTask>
    ensures taken { IfOk result (λ _. fault_of trace_command (texts options.entry.now) ≡ []) }
    ensures found { IfOk result (λ tool.
        IsTrace tool (matches_of trace_command (texts options.entry.now))) }
    ensures refused { (complaint : Complaint) → result ≡ Err (Refused complaint)
        → fault_of trace_command (texts options.entry.now) ≢ [] }
{
    let matches = trace_matches(alloc, options)?;
    let settings = matches.get_str("config").unwrap_or("");
    let strict = is_true(matches.get_str("strict"));
    Ok(Tool::Trace {
        settings: String::from_str(alloc, settings)?,
        strict,
        chart: copy_of(alloc, matches.get_str("chart"))?,
        capture: copy_of(alloc, matches.get_str("capture"))?,
    })
}

/// What `clap` finds in the words after `judge`. `Refused` only if `clap` refuses the words.
fn judge_matches<'a>(alloc: Global, options: &'a [&'a str]) -> Result<ArgMatches<'a>, NoTask>
    ensures taken { IfOk result (λ _. fault_of judge_command (texts options.entry.now) ≡ []) }
    ensures found { IfOk result (λ matches.
        rows_of (found_of matches) ≡ matches_of judge_command (texts options.entry.now)) }
    ensures refused { (complaint : Complaint) → result ≡ Err (Refused complaint)
        → fault_of judge_command (texts options.entry.now) ≢ [] }
{
    let command = judge_command(alloc)?;
    match command.try_get_matches_from(options) {
        Ok(matches) => Ok(matches),
        Err(error) => Err(NoTask::from(error)),
    }
}

/// The tool that the words after `judge` ask for, or `clap`'s complaint.
pub(crate) fn found_judge<'a>(alloc: Global, options: &'a [&'a str]) -> Result<Tool, NoTask>
    ensures taken { IfOk result (λ _. fault_of judge_command (texts options.entry.now) ≡ []) }
    ensures found { IfOk result (λ tool.
        IsJudge tool (matches_of judge_command (texts options.entry.now))) }
    ensures refused { (complaint : Complaint) → result ≡ Err (Refused complaint)
        → fault_of judge_command (texts options.entry.now) ≢ [] }
{
    let matches = judge_matches(alloc, options)?;
    let strict = is_true(matches.get_str("strict"));
    let tap = is_true(matches.get_str("tap"));
    Ok(Tool::Judge {
        settings: copy_of(alloc, matches.get_str("settings"))?,
        strict,
        tap,
    })
}

/// `DecodeLong` if `clap` takes the words after `decode`, which are `options`, or else `clap`'s
/// complaint.
pub(crate) fn found_long<'a>(alloc: Global, options: &'a [&'a str]) -> Result<Tool, NoTask>
    ensures taken { IfOk result (λ _. fault_of long_command (texts options.entry.now) ≡ []) }
    ensures found { IfOk result (λ tool. tool ≡ DecodeLong) }
    ensures refused { (complaint : Complaint) → result ≡ Err (Refused complaint)
        → fault_of long_command (texts options.entry.now) ≢ [] }
{
    let command = long_command(alloc)?;
    match command.try_get_matches_from(options) {
        Ok(_) => Ok(Tool::DecodeLong),
        Err(error) => Err(NoTask::from(error)),
    }
}

/// Whether the value of a flag is `true`, which it is exactly if the flag was given.
fn is_true(value: Option<&str>) -> bool
    ensures given { result ≡ true
        → option_map (λ text. text.now) value.entry ≡ Some (codes "true") }
    ensures only { option_map (λ text. text.now) value.entry ≡ Some (codes "true")
        → result ≡ true }
{
    match value {
        Some("true") => true,
        _ => false,
    }
}

/// The words after `trace`, or `None` if `trace` isn't the first word.
pub(crate) fn behind_trace<'a>(words: &'a [&'a str]) -> Option<&'a [&'a str]>
    ensures { option_map (λ options. texts options.now) result
        ≡ behind_trace (texts words.entry.now) }
{
    let (name, options) = words.split_first()?;
    if *name == "trace" {
        Some(options)
    } else {
        None
    }
}

/// The words after `judge`, or `None` if `judge` isn't the first word.
pub(crate) fn behind_judge<'a>(words: &'a [&'a str]) -> Option<&'a [&'a str]>
    ensures { option_map (λ options. texts options.now) result
        ≡ behind_judge (texts words.entry.now) }
{
    let (name, options) = words.split_first()?;
    if *name == "judge" {
        Some(options)
    } else {
        None
    }
}

/// The words from `--long` on, or `None` if the words don't begin with `decode --long`.
pub(crate) fn behind_decode<'a>(words: &'a [&'a str]) -> Option<&'a [&'a str]>
    ensures { option_map (λ options. texts options.now) result
        ≡ behind_decode (texts words.entry.now) }
{
    match words {
        [name, next, ..] if *name == "decode" && *next == "--long" => Some(&words[1..]),
        _ => None,
    }
}

/// Reads the words after the program's name as those of a tool. `Words` only if they begin with
/// neither `trace`, `judge` nor `decode --long`, or if `clap` refuses the rest; `Memory` on
/// allocation failure.
pub fn tool<'a>(alloc: Global, words: &'a [&'a str]) -> Result<Tool, TaskFault>
    ensures found { IfOk result (λ tool. IsTool tool (texts words.entry.now)) }
    ensures words { result ≡ Err Words → AreNoTool (texts words.entry.now) }
{
    if let Some(options) = behind_trace(words) {
        return found_trace(alloc, options).map_err(|none| none.fault());
    }
    if let Some(options) = behind_decode(words) {
        return found_long(alloc, options).map_err(|none| none.fault());
    }
    if let Some(options) = behind_judge(words) {
        return found_judge(alloc, options).map_err(|none| none.fault());
    }
    Err(TaskFault::Words)
}
