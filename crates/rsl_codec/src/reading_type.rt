// SPDX-License-Identifier: MIT OR Apache-2.0
//! Finds the type of a message. For the most frequent messages, nothing is copied.
ghost use Rattle.std.specs.Prelude.{◌≡◌, false, Some, IfSome, IsOk, IsTrue};
ghost use Rattle.octets.specs.Answer.{Gives, result_map};
ghost use Rattle.rsl_codec.specs.RslReading.{breaks_off, data_at, elements_of};
ghost use Rattle.rsl_codec.specs.RslReading.{rsl_reading, rsl_reading_by};
ghost use Rattle.rsl_codec.specs.RslType.{type_of};

use crate::fields::data_values;
use crate::measured::measurement_in;
use crate::{ChanNo, Rsl, RslFault, RslType};
use octets::MESSAGE_LIMIT;
use std::alloc::Global;

impl Rsl {
    /// The type of the message that `Rsl::read` reads from these octets, or the fault that
    /// `Rsl::read` returns.
    ///
    /// Needs no memory for a DATA REQUEST or DATA INDICATION whose elements are just channel
    /// number, link identifier and L3 information in this order. Needs no memory either for a
    /// MEASUREMENT RESULT for which `read_measurement` returns `Some`. Any other message is read
    /// whole, with copies of its values.
    pub fn read_type(alloc: Global, octets: &[u8]) -> Result<RslType, RslFault>
        ensures { Gives RslFault.Memory (λ kind. kind) result
            (result_map type_of (rsl_reading octets.now)) }
    {
        if let Some(kind) = written_type(octets) {
            return Ok(kind);
        }
        let message = Rsl::read(alloc, octets)?;
        Ok(message.kind())
    }
}

// The type of the message in `octets`, if `is_written` returns `true` for its body. `None` doesn't
// mean that the octets have a fault.
#[tactic(auto, unfolding(crate::specs::RslReading::rsl_reading))]
fn written_type(octets: &[u8]) -> Option<RslType>
    ensures { IfSome result (λ kind. result_map type_of (rsl_reading octets.now) ≡ Ok kind) }
{
    let [discriminator, octet, body @ ..] = octets else {
        return None;
    };
    let kind = RslType::of_octets(*discriminator, *octet)?;
    if is_written(kind, body) {
        Some(kind)
    } else {
        None
    }
}

// Whether it can be seen without a walk over the elements of `body` that a message of type `kind`
// is read from `body`. `false` doesn't mean that `body` has a fault.
#[tactic(auto, unfolding(crate::specs::RslReading::message_at))]
fn is_written(kind: RslType, body: &[u8]) -> bool
    ensures { IsTrue result →
        result_map type_of (rsl_reading_by (Some kind) body.now) ≡ Ok kind }
{
    match kind {
        RslType::DataRequest | RslType::DataIndication => is_written_data(body),
        RslType::MeasurementResult => measurement_in(body).is_some(),
        _ => false,
    }
}

// Like `is_written`, for DATA REQUEST and DATA INDICATION: whether `body` consists of an allowed
// channel number, a link identifier, and 1 to 251 octets of L3 information, in this order.
#[tactic(auto, unfolding(crate::specs::RslReading::breaks_off, crate::specs::RslReading::elements_of, crate::specs::RslReading::data_at))]
fn is_written_data(body: &[u8]) -> bool
    ensures whole { IsTrue result → breaks_off body.now ≡ false }
    ensures reads { IsTrue result → IsOk (data_at (elements_of body.now)) }
{
    let Some((channel, _, l3)) = data_values(body) else {
        return false;
    };
    ChanNo::read(channel).is_ok() && !l3.is_empty() && l3.len() <= MESSAGE_LIMIT
}
