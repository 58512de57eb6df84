// SPDX-License-Identifier: MIT OR Apache-2.0
use link_workers::Pauses;
use std::test::Fail;
use std::time::Instant;

/// The pauses between the tries after which an outbox is given up are together long enough for a
/// slow peer to read.
#[test]
fn a_thousand_pauses_last_half_a_second(rt: HostRuntime) -> Result<(), Fail> {
    let begin = Instant::now(&rt)?;
    let mut pauses = Pauses::new();
    for _ in 0..1_000 {
        pauses.pause(&rt);
    }
    assert!(rt; begin.elapsed(&rt)?.as_millis() >= 500);
    Ok(())
}
