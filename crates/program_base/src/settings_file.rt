// SPDX-License-Identifier: MIT OR Apache-2.0
ghost use Rattle.std.specs.Prelude.{◌≡◌, ◌≢◌, Err};
ghost use Rattle.std.specs.IoError.{error_kind};
ghost use Rattle.program_base.specs.SettingsText.{settings_of, unread_fault};
ghost use Rattle.program_io.specs.declared.failure.Failure.TheVariants.{Memory as OutOfMemory};
ghost use Rattle.program_base.specs.declared.fault.ProgramFault.TheVariants.{Failed};

use crate::fault::ProgramFault;
use program_io::Failure;
use settings::{Settings, SettingsFault};
use std::alloc::Global;
use std::fs;
use std::io::{self, ErrorKind};
use std::rt::Runtime;

/// Reads the text of the settings' file. `Failed(Memory)` on allocation failure, else
/// `UnreadSettings` if the file can't be read or isn't UTF-8.
pub fn settings_text<R: Runtime + AllocGlobal>(rt: &R, file: &str) -> Result<String, ProgramFault> {
    match fs::read_to_string(rt, file) {
        Ok(text) => Ok(text),
        Err(error) => Err(unread_fault(&error)),
    }
}

/// Reads the text of the settings' file, or answers the status that the program ends with. If the
/// file can't be read, two lines on standard error report that, the second with the reason. An
/// allocation failure is reported in one line.
pub fn settings_text_or_status<R: Runtime + AllocGlobal>(rt: &R, file: &str) -> Result<String, u8> {
    match fs::read_to_string(rt, file) {
        Ok(text) => Ok(text),
        Err(error) => {
            let fault = unread_fault(&error);
            let _ = eprintln!(rt; "bsc: {fault}");
            if let ProgramFault::UnreadSettings = fault {
                let _ = eprintln!(rt; "bsc: settings: {file}: {error}");
            }
            Err(fault.status())
        }
    }
}

/// The program's fault for an error of reading the settings' file: `Failed(Memory)` for
/// `OutOfMemory`, else `UnreadSettings`.
pub fn unread_fault(error: &io::Error) -> ProgramFault
    ensures { result ≡ unread_fault (error_kind error.now) }
{
    match error.kind() {
        ErrorKind::OutOfMemory => ProgramFault::Failed(Failure::Memory),
        _ => ProgramFault::UnreadSettings,
    }
}

/// Reads the settings from the text of their file, or answers their first fault. An allocation
/// failure answers `Failed(Memory)`, whatever the text.
pub fn read_settings(alloc: Global, text: &str) -> Result<Settings, ProgramFault>
    ensures { result ≢ Err (Failed OutOfMemory) → result ≡ settings_of text.now }
{
    match Settings::read(alloc, text) {
        Ok(settings) => Ok(settings),
        Err(SettingsFault::Memory) => Err(ProgramFault::Failed(Failure::Memory)),
        Err(fault) => Err(ProgramFault::Settings(fault)),
    }
}
