// SPDX-License-Identifier: MIT OR Apache-2.0
use program_base::{Task, TaskFault, task};
use std::alloc::Global;
use std::test::Fail;

/// Words after the program's name, and the task that they ask for.
const TASKS: &[(&[&str], &str)] = &[
    (&[], "no command"),
    (&["relay"], "no command"),
    (&["--help"], "no command"),
    (&["help"], "no command"),
    (&["run"], "no command"),
    (&["run", "--config"], "no command"),
    (&["run", "--config", "a.toml"], "run a.toml"),
    (&["run", "--config", "a.toml", "b"], "no command"),
    (&["replay"], "replay -, -"),
    (&["replay", "--config", "a.toml"], "replay a.toml, -"),
    (
        &["replay", "--break", "2", "--config", "a.toml"],
        "replay a.toml, 2",
    ),
    (&["replay", "--break", "2"], "replay -, 2"),
    (&["decode"], "decode"),
    (&["decode", "--config", "a.toml"], "no command"),
];

/// A line that names the task for which these words ask.
fn asked<'a>(alloc: Global, words: &'a [&'a str]) -> Result<String, Fail> {
    match task(alloc, words) {
        Ok(Task::Run(file)) => Ok(format!(in alloc; "run {file}")?),
        Ok(Task::Replay(file, breaks)) => {
            let file = file.as_deref().unwrap_or("-");
            let breaks = breaks.as_deref().unwrap_or("-");
            Ok(format!(in alloc; "replay {file}, {breaks}")?)
        }
        Ok(Task::Decode) => Ok(String::from_str(alloc, "decode")?),
        Err(TaskFault::Words) => Ok(String::from_str(alloc, "no command")?),
        Err(TaskFault::Memory) => Ok(String::from_str(alloc, "no memory")?),
    }
}

#[test]
fn words_ask_for_tasks(rt: HostRuntime) -> Result<(), Fail> {
    for (words, expected) in TASKS {
        let found = asked(rt.alloc(), words)?;
        assert!(rt; found.as_str() == *expected, "{found}");
    }
    Ok(())
}
