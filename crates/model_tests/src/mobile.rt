// SPDX-License-Identifier: MIT OR Apache-2.0
use dtap_codec::{Modulus, Sapi};
use mobile_end::{MobileEnd, MobileFault};
use std::alloc::Global;
use std::process::Abort;
use std::test::Fail;

/// What a mobile or its station does.
#[derive(Clone, Copy)]
enum Step {
    Send([u8; 2]),
    /// The station takes the frame in the air.
    Frame,
    /// The station takes the frame in the air, and acknowledges this frame.
    AckedFrame,
    Leave,
    Arrive,
    GiveUp,
}

/// A mobile that has connected with this initial message.
fn connect(alloc: Global, initial: &[u8]) -> Result<MobileEnd, Fail> {
    let initial = initial.to_vec(alloc)?;
    let mut mobile = MobileEnd::new(alloc, Modulus::Four);
    mobile.connect(Some(initial))?;
    Ok(mobile)
}

fn frame(alloc: Global, mobile: &mut MobileEnd) -> Result<Vec<u8>, Fail> {
    match mobile.frame(Sapi::Zero)? {
        Some(frame) => Ok(frame.to_vec(alloc)?),
        None => Ok(Vec::new(alloc)),
    }
}

/// The mobile leaves its channel and arrives on another. If it has already left, `leave` changes
/// nothing.
fn arrive(alloc: Global, mobile: &mut MobileEnd) -> Result<(), Fail> {
    let complete = [0x06, 0x29, 0x00].to_vec(alloc)?;
    mobile.leave();
    mobile.arrive(complete)?;
    Ok(())
}

fn give_up(alloc: Global, mobile: &mut MobileEnd) -> Result<(), Fail> {
    let failure = [0x06, 0x28, 0x03].to_vec(alloc)?;
    mobile.leave();
    mobile.give_up(failure)?;
    Ok(())
}

/// The octets of the frame that the station takes at a step. Empty if the station takes no frame,
/// or if the frame can't be acknowledged.
fn frame_of(alloc: Global, mobile: &mut MobileEnd, step: Step) -> Result<Vec<u8>, Fail> {
    match step {
        Step::Send(message) => mobile.send(Sapi::Zero, message.to_vec(alloc)?)?,
        Step::Frame => return frame(alloc, mobile),
        Step::AckedFrame => {
            let taken = frame(alloc, mobile)?;
            if mobile.acked(Sapi::Zero) {
                return Ok(taken);
            }
        }
        Step::Leave => mobile.leave(),
        Step::Arrive => arrive(alloc, mobile)?,
        Step::GiveUp => give_up(alloc, mobile)?,
    }
    Ok(Vec::new(alloc))
}

/// Steps, and the octets of the frame that the station takes at each step.
const STEPS: &[(Step, &[u8])] = &[
    (Step::Send([0x03, 0x05]), &[]),
    (Step::AckedFrame, &[0x05, 0x24, 0x71]),
    (Step::Frame, &[0x03, 0x45]),
    (Step::Leave, &[]),
    (Step::Frame, &[]),
    (Step::Arrive, &[]),
    (Step::AckedFrame, &[0x06, 0x29, 0x00]),
    (Step::AckedFrame, &[0x03, 0x45]),
    (Step::Send([0x03, 0x0f]), &[]),
    (Step::Frame, &[0x03, 0x8f]),
    (Step::GiveUp, &[]),
    (Step::AckedFrame, &[0x06, 0x28, 0x03]),
    (Step::Frame, &[0x03, 0x8f]),
];

/// Asserts which frame the station takes at each step.
fn all_take(rt: &(impl Abort + AllocGlobal), mobile: &mut MobileEnd) -> Result<(), Fail> {
    for (step, expected) in STEPS {
        let found = frame_of(rt.alloc(), mobile, *step)?;
        assert!(rt; found.as_slice() == *expected);
    }
    Ok(())
}

#[test]
fn an_unacknowledged_message_is_sent_again(rt: HostRuntime) -> Result<(), Fail> {
    let mut mobile = connect(rt.alloc(), &[0x05, 0x24, 0x71])?;
    let took = all_take(&rt, &mut mobile);
    assert!(rt; mobile.sent().len() == 3);
    took
}

/// Whether a message of this size is sent. The message is a short message, which carries no number.
fn sends(alloc: Global, mobile: &mut MobileEnd, octets: usize) -> Result<bool, Fail> {
    let message = vec![in alloc; 0x09; octets]?;
    match mobile.send(Sapi::Three, message) {
        Ok(()) => Ok(true),
        Err(MobileFault::BadMessage) => Ok(false),
        Err(_) => Err(Fail::new("another fault")),
    }
}

#[test]
fn an_unnumbered_message_of_251_octets_is_the_longest(rt: HostRuntime) -> Result<(), Fail> {
    let alloc = rt.alloc();
    let mut mobile = connect(alloc, &[0x05, 0x24, 0x71])?;
    assert!(rt; sends(alloc, &mut mobile, 251)?);
    assert!(rt; !sends(alloc, &mut mobile, 252)?);
    Ok(())
}
