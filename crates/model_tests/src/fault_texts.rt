// SPDX-License-Identifier: MIT OR Apache-2.0
use link_model::LinkFault;
use mobile_end::MobileFault;
use msc_end::MscFault;
use std::fmt::Display;
use std::process::Abort;
use std::test::Fail;

/// Asserts the printed text of each fault of the table.
fn tells<F: Display>(rt: &(impl Abort + AllocGlobal), table: &[(F, &str)]) -> Result<(), Fail> {
    for (fault, text) in table {
        let shown = format!(in rt.alloc(); "{fault}")?;
        assert!(rt; shown.as_str() == *text);
    }
    Ok(())
}

#[test]
fn faults_of_the_models_have_their_texts(rt: HostRuntime) -> Result<(), Fail> {
    tells(
        &rt,
        &[
            (LinkFault::NotActive, "the channel is not active"),
            (LinkFault::Busy, "the channel is active"),
            (LinkFault::Memory, "out of memory"),
        ],
    )?;
    tells(
        &rt,
        &[
            (MobileFault::NotConnected, "the mobile is not connected"),
            (MobileFault::BadMessage, "the message may not be sent"),
            (MobileFault::Memory, "out of memory"),
        ],
    )?;
    tells(
        &rt,
        &[
            (MscFault::NoConnection, "no such connection"),
            (MscFault::Closed, "connection closed"),
            (MscFault::Memory, "out of memory"),
        ],
    )
}
