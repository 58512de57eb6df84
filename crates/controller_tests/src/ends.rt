// SPDX-License-Identifier: MIT OR Apache-2.0
//! Connections end in another order than that in which they began.
use crate::exchanges::Event::Comes;
use crate::exchanges::step_of;
use controller::{Controller, Outputs, Settings};
use std::alloc::Global;
use std::process::Abort;
use std::test::Fail;

const EIGHT_CHANNELS: &str =
    "[network]\nmcc = \"001\"\nmnc = \"01\"\n[switch]\naddress = \"127.0.0.1:5000\"\n\
[[cell]]\nlisten = \"127.0.0.1:3003\"\nlac = 1\nci = 1\narfcn = 20\nbsic = 9\n\
channels = [0x41, 0x49, 0x51, 0x59, 0x61, 0x69, 0x71, 0x79]\n";

/// A CHANNEL REQUIRED.
const REQUIRED: &str = "0c130188137f01021105";

/// A CHANNEL ACTIVATION NACK for each channel, and the numbers of the connections that are then
/// left.
const ENDS: &[(&str, &[u32])] = &[
    ("08230169", &[1, 2, 3, 4, 5, 7, 8]),
    ("08230141", &[2, 3, 4, 5, 7, 8]),
    ("08230179", &[2, 3, 4, 5, 7]),
    ("08230151", &[2, 4, 5, 7]),
    ("08230149", &[4, 5, 7]),
    ("08230171", &[4, 5]),
    ("08230159", &[5]),
    ("08230161", &[]),
];

/// A frame arrives from the station.
fn comes(alloc: Global, controller: &mut Controller, digits: &str) -> Result<(), Fail> {
    let mut outputs = Outputs::new(alloc);
    let step = step_of(alloc, Comes(1, digits))?;
    controller.run_one(step, &mut outputs)?;
    Ok(())
}

/// As many mobiles as there are channels ask for a channel. Each channel is then to be activated.
fn all_begin(alloc: Global, controller: &mut Controller) -> Result<(), Fail> {
    for _ in ENDS {
        comes(alloc, controller, REQUIRED)?;
    }
    Ok(())
}

/// The numbers of the connections, in order.
fn numbers_of(alloc: Global, controller: &Controller) -> Result<Vec<u32>, Fail> {
    let mut numbers = Vec::new(alloc);
    for place in 0..controller.connection_count() {
        if let Some(connection) = controller.connection_at(place) {
            numbers.push(connection.number())?;
        }
    }
    Ok(numbers)
}

/// Asserts which connections are left after the end of each connection.
fn all_end(rt: &(impl Abort + AllocGlobal), controller: &mut Controller) -> Result<(), Fail> {
    all_begin(rt.alloc(), controller)?;
    for (refused, left) in ENDS {
        comes(rt.alloc(), controller, refused)?;
        let numbers = numbers_of(rt.alloc(), controller)?;
        assert!(rt; numbers.as_slice() == *left);
    }
    Ok(())
}

#[test]
fn connections_end_in_any_order(rt: HostRuntime) -> Result<(), Fail> {
    let settings = Settings::read(rt.alloc(), EIGHT_CHANNELS)?;
    let mut controller = Controller::new(rt.alloc(), settings)?;
    let ended = all_end(&rt, &mut controller);
    assert!(rt; controller.ignored() == 0);
    ended
}
