// SPDX-License-Identifier: MIT OR Apache-2.0
ghost use Rattle.std.specs.Prelude.{◌≡◌, option_map};
ghost use Rattle.octets.specs.Answer.{result_map};
ghost use Rattle.bssmap_codec.specs.SccpReading.{part_at, option_at, data_in, user_data_at};

use crate::InterfaceFault;
use crate::identifiers::{END_OF_OPTIONS, USER_DATA};
use crate::sccp_parameters::NO_PART;
use octets::front::counted;

/// An option and the octets after the option.
#[derive(Clone, Copy)]
struct Found<'a> {
    id: u8,
    value: &'a [u8],
    rest: &'a [u8],
}

/// The octets from the place that `pointer` leads to, to the end. The pointer counts from its own
/// octet, the first of `octets` (Q.713 clause 2.3). Returns `BadPointer` if the pointer is 0 or
/// leads out of `octets`.
#[tactic(auto, unfolding(crate::specs::SccpReading::part_at))]
pub fn part(octets: &[u8], pointer: u8) -> Result<&[u8], InterfaceFault>
    ensures { result_map (λ p. p.now) result ≡ part_at pointer octets.now }
{
    let distance = usize::from(pointer);
    if pointer == NO_PART || octets.len() <= distance {
        return Err(InterfaceFault::BadPointer);
    }
    Ok(&octets[distance..])
}

/// The option at the front. Returns `Ok(None)` if there are no octets or the first is the
/// end-of-options octet, and `Short` if the option is cut.
#[tactic(auto, unfolding(crate::specs::SccpReading::option_at))]
fn option(octets: &[u8]) -> Result<Option<Found<'_>>, InterfaceFault>
    ensures { result_map (option_map (λ f. (f.id, f.value.now, f.rest.now))) result ≡
        option_at octets.now }
{
    let Some((id, rest)) = octets.split_first() else {
        return Ok(None);
    };
    if *id == END_OF_OPTIONS {
        return Ok(None);
    }
    let (value, rest) = counted(rest, InterfaceFault::Short)?;
    Ok(Some(Found {
        id: *id,
        value,
        rest,
    }))
}

/// The value of the first option that carries user data; `None` if no option carries user data.
/// Options after the user data aren't looked at. Returns `Short` if an option that is looked at is
/// cut.
fn data(options: &[u8]) -> Result<Option<&[u8]>, InterfaceFault>
    ensures { result_map (option_map (λ d. d.now)) result ≡ data_in options.now }
{
    let mut rest = options;
    loop {
        match option(rest) {
            Ok(Some(found)) => {
                if found.id == USER_DATA {
                    return Ok(Some(found.value));
                }
                rest = found.rest;
            }
            Ok(None) => return Ok(None),
            Err(fault) => return Err(fault),
        }
    }
}

/// The user data among the options that `pointer` leads to; `None` if no option carries user data,
/// or if the pointer is 0, which says that there are no options. Returns `BadPointer` if the
/// pointer leads out of `octets`, and `Short` if an option up to the user data is cut.
#[tactic(auto, unfolding(crate::specs::SccpReading::user_data_at))]
pub fn user_data(octets: &[u8], pointer: u8) -> Result<Option<&[u8]>, InterfaceFault>
    ensures { result_map (option_map (λ d. d.now)) result ≡ user_data_at pointer octets.now }
{
    if pointer == NO_PART {
        return Ok(None);
    }
    data(part(octets, pointer)?)
}
