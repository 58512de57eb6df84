// SPDX-License-Identifier: MIT OR Apache-2.0
ghost use Rattle.std.specs.Prelude.{◌≡◌, ◌↔◌, ℕ, ◌/◌, ◌≤◌, List, ◌∷◌, ◌++◌, drop, false};
ghost use Rattle.std.specs.Prelude.{length, map, option_map, Option, Some, IfSome, IsSome, IsTrue};
ghost use Rattle.octets.specs.Answer.{Gives};
ghost use Rattle.octets.specs.Element.{AreElements, Stops};
ghost use Rattle.octets.specs.Walk.{finding, walk};
ghost use Rattle.octets.specs.declared.limits.TheConstants.{LENGTH_LIMIT};
ghost use Rattle.rsl_codec.specs.declared.identifiers.TheConstants.{ELEMENTS};
ghost use Rattle.rsl_codec.specs.Fields.{number_value};
ghost use Rattle.rsl_codec.specs.WrittenOrder.{AreInOrder, IsInOrder, IsMeasurement};
ghost use Rattle.rsl_codec.specs.WrittenOrder.{l3_elements, measured_elements};
ghost use Rattle.rsl_codec.specs.RslReading.{measurement_result_at, optional_l3_at};
ghost use Rattle.rsl_codec.specs.RslReading.{breaks_off, elements_of};
ghost use Rattle.rsl_codec.specs.RslReading.{rsl_reading, rsl_reading_by};
ghost use Rattle.rsl_codec.specs.RslType.{rsl_type};
ghost use Rattle.rsl_codec.specs.declared.rsl_type.RslType.TheVariants as types;

use crate::fields::optional_l3;
use crate::identifiers::{
    BS_POWER, CHANNEL_NUMBER, ELEMENTS, L1_INFORMATION, L3_INFORMATION, MEASUREMENT_NUMBER,
    UPLINK_MEASUREMENTS,
};
use crate::{
    BsPower, ChanNo, DEDICATED_CHANNEL, L1Information, MeasurementNumber, MeasurementResult,
    RslFault, RslType, UplinkMeasurements,
};
use octets::{MESSAGE_LIMIT, Octets, element};
use std::alloc::Global;

/// The values of a MEASUREMENT RESULT whose elements are in written order and all present; only the
/// L3 information may be absent.
#[derive(Clone, Copy)]
pub(crate) struct Measured<'a> {
    pub channel: u8,
    pub number: u8,
    pub uplink: &'a [u8],
    pub bs_power: u8,
    pub l1: u16,
    pub l3: Option<&'a [u8]>,
}

/// Reads the values of `body` without a walk over its elements. Returns `None` unless `body` has
/// all elements of a MEASUREMENT RESULT in written order, of which only the L3 information may be
/// absent. After these elements, `body` must end or go on with an identifier that no known element
/// has.
pub(crate) fn measured_values(body: &[u8]) -> Option<Measured<'_>>
    ensures walked { IfSome result (λ m. walk ELEMENTS body.now ≡ finding
        (measured_elements m.channel m.number m.uplink.now m.bs_power m.l1
        (option_map (λ v. v.now) m.l3)) false) }
    ensures answers { AreInOrder (map (λ e. e.id) (elements_of body.now)) →
        breaks_off body.now ≡ false → IsSome result }
{
    let (channel, rest) = one_octet(body, CHANNEL_NUMBER)?;
    let (number, rest) = one_octet(rest, MEASUREMENT_NUMBER)?;
    let (uplink, rest) = counted(rest, UPLINK_MEASUREMENTS)?;
    let (bs_power, rest) = one_octet(rest, BS_POWER)?;
    let (l1, rest) = two_octets(rest, L1_INFORMATION)?;
    let l3 = last_l3(rest)?;
    Some(Measured {
        channel,
        number,
        uplink,
        bs_power,
        l1,
        l3,
    })
}

// If `octets` begins with the identifier `id` and a value of one octet, returns the value and the
// octets after the value; else `None`.
fn one_octet(octets: &[u8], id: u8) -> Option<(u8, &[u8])>
    ensures is { IfSome result (λ p. octets.now ≡ id ∷ (p.0 ∷ p.1.now)) }
    ensures answers { (value : ℕ) (rest : List ℕ) →
        octets.now ≡ id ∷ (value ∷ rest) → IsSome result }
{
    match octets {
        [first, value, rest @ ..] if *first == id => Some((*value, rest)),
        _ => None,
    }
}

// Like `one_octet`, for a value of two octets that is a number with the high octet first.
fn two_octets(octets: &[u8], id: u8) -> Option<(u16, &[u8])>
    ensures is { IfSome result (λ p. octets.now ≡ id ∷ (number_value p.0 ++ p.1.now)) }
    ensures answers { (high low : ℕ) (rest : List ℕ) →
        octets.now ≡ id ∷ (high ∷ (low ∷ rest)) → IsSome result }
{
    match octets {
        [first, high, low, rest @ ..] if *first == id => {
            Some((u16::from_be_bytes([*high, *low]), rest))
        }
        _ => None,
    }
}

// Like `one_octet`, for a value with its length in one octet before the value.
fn counted(octets: &[u8], id: u8) -> Option<(&[u8], &[u8])>
    ensures is { IfSome result (λ p.
        octets.now ≡ id ∷ (length p.0.now ∷ (p.0.now ++ p.1.now))) }
    ensures size { IfSome result (λ p. length p.0.now ≤ LENGTH_LIMIT) }
    ensures answers { (value rest : List ℕ) →
        octets.now ≡ id ∷ (length value ∷ (value ++ rest)) → IsSome result }
{
    match octets {
        [first, size, rest @ ..] if *first == id => rest.split_at_checked(usize::from(*size)),
        _ => None,
    }
}

// Like `one_octet`, for a value with its length in two octets before the value, the high octet
// first.
fn long_counted(octets: &[u8], id: u8) -> Option<(&[u8], &[u8])>
    ensures is { IfSome result (λ p.
        octets.now ≡ id ∷ (number_value (length p.0.now) ++ (p.0.now ++ p.1.now))) }
    ensures size { IfSome result (λ p. length p.0.now ≤ 65535) }
    ensures answers { (value rest : List ℕ) →
        octets.now ≡ id ∷ (number_value (length value) ++ (value ++ rest)) → IsSome result }
{
    match octets {
        [first, high, low, rest @ ..] if *first == id => {
            rest.split_at_checked(usize::from(u16::from_be_bytes([*high, *low])))
        }
        _ => None,
    }
}

// `Some(Some(l3))` if the L3 information is the only element in `octets`; `Some(None)` if `octets`
// has no element; else `None`.
fn last_l3(octets: &[u8]) -> Option<Option<&[u8]>>
    ensures are { IfSome result (λ l3. AreElements ELEMENTS octets.now
        (l3_elements (option_map (λ v. v.now) l3)) false) }
    ensures answers { (l3 : Option (List ℕ)) →
        AreElements ELEMENTS octets.now (l3_elements l3) false → IsSome result }
{
    match long_counted(octets, L3_INFORMATION) {
        Some((l3, rest)) if stops(rest) => Some(Some(l3)),
        None if stops(octets) => Some(None),
        _ => None,
    }
}

// Whether no element begins here: `octets` is empty, or its first octet is the identifier of no
// known element.
fn stops(octets: &[u8]) -> bool
    ensures { IsTrue result ↔ Stops ELEMENTS octets.now }
{
    match octets {
        [id, ..] => element::format_of(&ELEMENTS, *id).is_none(),
        [] => true,
    }
}

impl MeasurementResult {
    /// The message with these values. Returns `BadChannel` if no channel has the channel number,
    /// `Short` if the L3 information is empty, `TooLong` if the L3 information has more than 251
    /// octets, `Memory` if memory runs out.
    #[tactic(auto, unfolding(crate::specs::RslReading::measurement_result_at))]
    pub(crate) fn of(alloc: Global, values: Measured<'_>) -> Result<MeasurementResult, RslFault>
        ensures { Gives RslFault.Memory (λ m. m) result (measurement_result_at
            (measured_elements values.entry.channel values.entry.number values.entry.uplink.now
            values.entry.bs_power values.entry.l1
            (option_map (λ v. v.now) values.entry.l3))) }
    {
        let channel = ChanNo::read(values.channel)?;
        let l3 = optional_l3(alloc, values.l3)?;
        let uplink = UplinkMeasurements(Octets::copy(alloc, values.uplink)?);
        Ok(MeasurementResult {
            channel,
            number: MeasurementNumber(values.number),
            uplink: Some(uplink),
            bs_power: Some(BsPower(values.bs_power)),
            l1: Some(L1Information(values.l1)),
            l3,
        })
    }
}

/// The channel, the measurement number and the L3 information of a MEASUREMENT RESULT, as
/// `Rsl::read` would read them. Copies nothing.
///
/// Returns `Some` exactly if the octets have no fault (see `Rsl::read`), are a MEASUREMENT RESULT,
/// and contain each of its elements once, in written order. Only the L3 information may be absent.
/// Returns `None` for all other octets.
#[tactic(auto, unfolding(crate::specs::RslReading::rsl_reading))]
pub fn read_measurement(octets: &[u8]) -> Option<(ChanNo, MeasurementNumber, Option<&[u8]>)>
    ensures reads { IfSome result (λ m. IsMeasurement (rsl_reading octets.now) m.0 m.1.0
        (option_map (λ v. v.now) m.2)) }
    ensures answers { IsSome result ↔ IsInOrder (rsl_reading octets.now) (drop 2 octets.now) }
{
    match octets {
        [discriminator, octet, body @ ..] if is_result(*discriminator, *octet) => {
            measurement_in(body)
        }
        _ => None,
    }
}

// Whether these are the discriminator and the message type octet of a MEASUREMENT RESULT; bit 1 of
// the discriminator is ignored.
fn is_result(discriminator: u8, octet: u8) -> bool
    ensures { IsTrue result ↔ (rsl_type discriminator octet ≡ Some types.MeasurementResult) }
{
    discriminator / 2 == DEDICATED_CHANNEL / 2 && octet == RslType::MeasurementResult.octet()
}

// Like `read_measurement`, for the octets after the discriminator and the message type octet.
pub(crate) fn measurement_in(body: &[u8]) -> Option<(ChanNo, MeasurementNumber, Option<&[u8]>)>
    ensures reads { IfSome result (λ m. IsMeasurement
        (rsl_reading_by (Some types.MeasurementResult) body.now) m.0 m.1.0
        (option_map (λ v. v.now) m.2)) }
    ensures answers { IsSome result ↔
        IsInOrder (rsl_reading_by (Some types.MeasurementResult) body.now) body.now }
{
    let values = measured_values(body)?;
    match ChanNo::read(values.channel) {
        Ok(channel) if has_room(values.l3) => {
            Some((channel, MeasurementNumber(values.number), values.l3))
        }
        _ => None,
    }
}

// Whether the L3 information is absent or has 1 to 251 octets.
fn has_room(l3: Option<&[u8]>) -> bool
    ensures { IsTrue result ↔ (optional_l3_at (option_map (λ v. v.now) l3.entry)
        ≡ Ok (option_map (λ v. v.now) l3.entry)) }
{
    match l3 {
        Some(l3) => !l3.is_empty() && l3.len() <= MESSAGE_LIMIT,
        None => true,
    }
}
