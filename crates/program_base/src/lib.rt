// SPDX-License-Identifier: MIT OR Apache-2.0
//! The parts that the program's commands share: the command line and its help, the reading of
//! settings and scripts, and the faults that end a command with a status above 0. `clap` finds the
//! task or the tool that the command line asks for. Each line of a script names an event of a
//! world. The command `bsc decode`, which names the frames of a link, is here too.
#![tactic(auto)]

pub use arguments::{asked, print_usage};
pub use complaint::Complaint;
pub use decode_command::{decode, decode_as};
pub use fault::ProgramFault;
pub use first_line::split_first_line;
pub use frame_line::FrameLine;
pub use kept_script::{KeptScript, read_kept_script};
pub use line_fault::LineFault;
pub use names::{frame_name, rsl_fault_name, rsl_message_name, sccp_message_name};
pub use parsing::task;
pub use script::read_line;
pub use settings_file::{read_settings, settings_text, settings_text_or_status, unread_fault};
pub use tools::tool;
pub use value::read_source;
pub use watched::{WatchedInput, WatchedOutput};
pub use whole_script::read_script;
pub use words::{Asked, Task, TaskFault, Tool};

mod arguments;
mod complaint;
mod decode_command;
mod fault;
mod first_line;
mod frame_line;
mod hexadecimal;
mod kept_script;
mod line_fault;
mod line_words;
mod names;
mod no_task;
mod parsing;
mod script;
mod settings_file;
mod tools;
mod usage;
mod value;
mod watched;
mod whole_script;
mod words;
