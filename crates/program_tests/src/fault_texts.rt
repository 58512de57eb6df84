// SPDX-License-Identifier: MIT OR Apache-2.0
use judge_lines::LineFault as FrameLineFault;
use program_base::{LineFault, ProgramFault};
use program_io::Failure;
use settings::SettingsFault;
use std::fmt::Display;
use std::process::Abort;
use std::test::Fail;

/// Asserts the printed text of each fault of the table.
fn tells<F: Display>(rt: &(impl Abort + AllocGlobal), table: &[(F, &str)]) -> Result<(), Fail> {
    for (fault, text) in table {
        let shown = format!(in rt.alloc(); "{fault}")?;
        assert!(rt; shown.as_str() == *text);
    }
    Ok(())
}

#[test]
fn faults_of_the_program_have_their_texts(rt: HostRuntime) -> Result<(), Fail> {
    tells(
        &rt,
        &[
            (ProgramFault::UnreadSettings, "settings: cannot read"),
            (
                ProgramFault::Settings(SettingsFault::NotToml),
                "settings: not TOML",
            ),
            (
                ProgramFault::BadBreak,
                "--break wants --config, and a number from 0 to that of the cells",
            ),
            (ProgramFault::Failed(Failure::Device), "device failed"),
        ],
    )?;
    tells(
        &rt,
        &[
            (Failure::BadEvent(7), "line 7: bad event"),
            (Failure::Device, "device failed"),
            (Failure::Memory, "out of memory"),
        ],
    )?;
    tells(
        &rt,
        &[
            (LineFault::BadEvent, "bad event"),
            (LineFault::Memory, "out of memory"),
        ],
    )
}

#[test]
fn faults_of_a_line_of_frames_have_their_texts(rt: HostRuntime) -> Result<(), Fail> {
    tells(
        &rt,
        &[
            (FrameLineFault::NotSixColumns, "not six columns"),
            (FrameLineFault::NoEnd, "no end of a link"),
            (
                FrameLineFault::NotHexadecimal,
                "octets that aren't hexadecimal",
            ),
            (FrameLineFault::TooLong, "longer than 1048576 octets"),
            (FrameLineFault::Memory, "out of memory"),
        ],
    )
}
