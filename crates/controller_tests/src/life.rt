// SPDX-License-Identifier: MIT OR Apache-2.0
use crate::exchanges::lives_ignoring;
use crate::parts::LIFE;
use std::test::Fail;

#[test]
fn a_life_from_access_to_release(rt: HostRuntime) -> Result<(), Fail> {
    lives_ignoring(&rt, LIFE, 0)
}
