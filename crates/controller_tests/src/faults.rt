// SPDX-License-Identifier: MIT OR Apache-2.0
use bssmap_codec::InterfaceFault;
use dtap_codec::RrFault;
use hold_queue::HoldFault;
use ipa_framing::FrameFault;
use octets::Memory;
use rsl_codec::RslFault;
use std::alloc::Global;
use std::fmt::Display;
use std::process::Abort;
use std::test::Fail;

/// Asserts that each fault of the table prints its text.
fn expect_texts<F: Display>(
    rt: &impl Abort,
    alloc: Global,
    table: &[(F, &str)],
) -> Result<(), Fail> {
    for (fault, text) in table {
        let printed = format!(in alloc; "{fault}")?;
        assert!(rt; printed.as_str() == *text);
    }
    Ok(())
}

#[test]
fn faults_print_their_texts(rt: HostRuntime) -> Result<(), Fail> {
    let alloc = rt.alloc();
    expect_texts(&rt, alloc, &[(Memory, "out of memory")])?;
    expect_texts(
        &rt,
        alloc,
        &[
            (HoldFault::Full(Vec::new(alloc)), "the hold is full"),
            (HoldFault::Memory(Vec::new(alloc)), "out of memory"),
        ],
    )?;
    expect_texts(
        &rt,
        alloc,
        &[
            (FrameFault::TooLong, "frame too long"),
            (FrameFault::Memory, "out of memory"),
        ],
    )?;
    expect_texts(
        &rt,
        alloc,
        &[
            (RrFault::Short, "message too short"),
            (
                RrFault::UnknownRr,
                "unknown message of radio resource management",
            ),
            (RrFault::Memory, "out of memory"),
        ],
    )?;
    expect_texts(
        &rt,
        alloc,
        &[
            (RslFault::Short, "message too short"),
            (RslFault::UnknownType, "unknown message type"),
            (RslFault::MissingElement(0x0b), "element 0b is missing"),
            (RslFault::BadChannel, "bad channel number"),
            (RslFault::Memory, "out of memory"),
            (RslFault::TooLong, "message too long"),
        ],
    )?;
    expect_texts(
        &rt,
        alloc,
        &[
            (InterfaceFault::Short, "message too short"),
            (InterfaceFault::UnknownType, "unknown type of message"),
            (
                InterfaceFault::MissingElement(0x17),
                "element 17 is missing",
            ),
            (
                InterfaceFault::MissingElement(0x05),
                "element 05 is missing",
            ),
            (InterfaceFault::BadPointer, "pointer out of the message"),
            (InterfaceFault::TooLong, "message too long"),
            (InterfaceFault::Memory, "out of memory"),
        ],
    )
}
