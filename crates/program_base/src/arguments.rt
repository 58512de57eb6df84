// SPDX-License-Identifier: MIT OR Apache-2.0
use crate::no_task::{NoTask, answered};
use crate::parsing::found_task;
use crate::tools::{
    behind_decode, behind_judge, behind_trace, found_judge, found_long, found_trace,
};
use crate::usage::{Page, asks_of, is_version};
use crate::words::{Asked, TaskFault};
use clap::Error;
use std::alloc::Global;
use std::env;
use std::io::ErrorKind;
use std::rt::Runtime;

/// Reads the words after the program's name. The words ask for the version, for a tool if they
/// begin with `trace`, `judge` or `decode --long`, or else for a task. Answers `Words` if the words
/// aren't UTF-8, aren't understood or ask for help, and `Memory` on allocation failure. A request
/// for help prints the page that it asks for. Words that aren't UTF-8 print the program's page.
/// Other refused words print `clap`'s complaint and the program's page.
pub fn asked<R: Runtime + AllocGlobal>(rt: &R) -> Result<Asked, TaskFault> {
    let words: Vec<String> = match env::args(rt) {
        Ok(words) => words.skip(1).collect(rt.alloc())?,
        Err(error) if error.kind() == ErrorKind::OutOfMemory => return Err(TaskFault::Memory),
        Err(_) => {
            print_page(rt, Page::Program);
            return Err(TaskFault::Words);
        }
    };
    let texts: Vec<&str> = words.iter().map(|word| word.as_str()).collect(rt.alloc())?;
    if is_version(&texts) {
        return Ok(Asked::Version);
    }
    let found = found(rt.alloc(), &texts);
    if let Err(NoTask::Refused(complaint)) = &found {
        complain(rt, complaint, &texts);
    }
    answered(found)
}

/// The tool or the task that the words ask for, or the reason why there is neither.
fn found<'a>(alloc: Global, words: &'a [&'a str]) -> Result<Asked, NoTask> {
    if let Some(options) = behind_trace(words) {
        return Ok(Asked::Tool(found_trace(alloc, options)?));
    }
    if let Some(options) = behind_decode(words) {
        return Ok(Asked::Tool(found_long(alloc, options)?));
    }
    if let Some(options) = behind_judge(words) {
        return Ok(Asked::Tool(found_judge(alloc, options)?));
    }
    Ok(Asked::Task(found_task(alloc, words)?))
}

/// Prints `clap`'s complaint and the program's page, or only the page that a request for help asks
/// for. `clap`'s own help isn't printed. `help trace` and `help judge` are also requests for help,
/// though `clap`, which doesn't know these commands, refuses them.
fn complain<R: Runtime>(rt: &R, complaint: &Error, words: &[&str]) {
    if complaint.use_stderr() && !asks_of(words, "trace") && !asks_of(words, "judge") {
        let _ = eprint!(rt; "{complaint}");
        print_page(rt, Page::Program);
    } else {
        print_page(rt, Page::of(words));
    }
}

/// Prints the program's page of help on standard error.
pub fn print_usage<R: Runtime>(rt: &R) {
    print_page(rt, Page::Program);
}

/// Prints a page of help on standard error.
fn print_page<R: Runtime>(rt: &R, page: Page) {
    let text = page.text();
    let _ = eprintln!(rt; "{text}");
}
