// SPDX-License-Identifier: MIT OR Apache-2.0
use dtap_codec::Sapi;
use hold_queue::{Chain, Hold, HoldFault};
use std::alloc::Global;
use std::process::Abort;
use std::test::Fail;

/// Two messages of SAPI 0, and two of SAPI 3.
const MESSAGES: &[(Sapi, [u8; 2])] = &[
    (Sapi::Three, [0x09, 0x01]),
    (Sapi::Zero, [0x83, 0x02]),
    (Sapi::Three, [0x09, 0x04]),
    (Sapi::Zero, [0x03, 0x05]),
];

fn fill(alloc: Global, hold: &mut Hold) -> Result<(), Fail> {
    for (sapi, message) in MESSAGES {
        hold.put(*sapi, message.to_vec(alloc)?)?;
    }
    Ok(())
}

/// Whether the put handed this message back because the hold is full.
fn is_handed_back(put: Result<(), HoldFault>, message: &[u8]) -> bool {
    match put {
        Err(HoldFault::Full(back)) => back.as_slice() == message,
        Err(HoldFault::Memory(_)) | Ok(()) => false,
    }
}

/// Whether the hold is full: a put hands this message back.
fn is_full(alloc: Global, hold: &mut Hold, message: &[u8]) -> Result<bool, Fail> {
    let put = hold.put(Sapi::Zero, message.to_vec(alloc)?);
    Ok(is_handed_back(put, message))
}

/// Asserts that a hold for four messages is full with `MESSAGES`, and which messages it then gives.
fn holds(rt: &(impl Abort + AllocGlobal), hold: &mut Hold) -> Result<(), Fail> {
    fill(rt.alloc(), hold)?;
    assert!(rt; is_full(rt.alloc(), hold, &[0x05, 0x24])?);
    assert!(rt; hold.get(Sapi::Three, 1) == Some([0x09, 0x04].as_slice()));
    assert!(rt; hold.clear_sapi(Sapi::Three) == 2);
    for expected in [[0x83, 0x02], [0x03, 0x05]] {
        let next = hold.next(Sapi::Zero);
        assert!(rt; next.is_some_and(|message| message.as_slice() == expected.as_slice()));
    }
    assert!(rt; hold.is_empty());
    Ok(())
}

#[test]
fn each_sapi_has_its_messages_in_order(rt: HostRuntime) -> Result<(), Fail> {
    let mut hold = Hold::new(rt.alloc(), 4);
    holds(&rt, &mut hold)
}

#[test]
fn a_hold_of_one_message(rt: HostRuntime) -> Result<(), Fail> {
    let mut hold = Hold::new(rt.alloc(), 1);
    hold.put(Sapi::Zero, [0x05, 0x24].to_vec(rt.alloc())?)?;
    assert!(rt; is_full(rt.alloc(), &mut hold, &[0x03, 0x05])?);
    assert!(rt; hold.next(Sapi::Three).is_none());
    let next = hold.next(Sapi::Zero);
    assert!(rt; next.is_some_and(|message| message.as_slice() == [0x05, 0x24].as_slice()));
    assert!(rt; hold.is_empty());
    Ok(())
}

#[test]
fn a_chain_of_one_message_in_its_second_tenure(rt: HostRuntime) -> Result<(), Fail> {
    let mut chain = Chain::new(rt.alloc(), 1)?;
    chain.add();
    chain.put(1, Sapi::Zero, [0x03, 0x45].to_vec(rt.alloc())?)?;
    let put = chain.put(0, Sapi::Zero, [0x03, 0x8f].to_vec(rt.alloc())?);
    assert!(rt; is_handed_back(put, &[0x03, 0x8f]));
    assert!(rt; chain.next(Sapi::Zero).is_none());
    chain.shift();
    let next = chain.next(Sapi::Zero);
    assert!(rt; next.is_some_and(|message| message.as_slice() == [0x03, 0x45].as_slice()));
    Ok(())
}
