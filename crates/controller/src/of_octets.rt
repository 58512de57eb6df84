// SPDX-License-Identifier: MIT OR Apache-2.0
ghost use Rattle.std.specs.List.{AllByRecursion};
ghost use Rattle.controller_model.specs.LifeLaws.Sending.{IsOctetStep};
ghost use Rattle.octets.specs.Element.{AreOctets};

use controller_model::{Step, What};

/// Steps of the code carry only octets, since each octet is a `u8`. Laws on frames assume this; a
/// caller proves it by a call of this function. Allocates nothing and changes nothing.
pub fn arrive_in_octets(steps: &[Step])
    ensures { AllByRecursion IsOctetStep steps.now }
{
    for step in steps {
        arrives_in_octets(step);
    }
}

/// Like `arrive_in_octets`, for one step.
pub fn arrives_in_octets(step: &Step)
    ensures { IsOctetStep step.now }
{
    match step {
        Step::Take(item) => match &item.what {
            What::Frame(frame) => octets_of(frame.body.as_slice()),
            What::Down => {}
        },
        Step::Tick(_) => {}
    }
}

// Each octet is below 256.
fn octets_of(octets: &[u8])
    ensures { AreOctets octets.now }
{}
