// SPDX-License-Identifier: MIT OR Apache-2.0
ghost use Rattle.std.specs.Prelude.{◌≡◌, ◌≢◌, ◌+◌, ◌%◌, ◌++◌, ◌∷◌};
ghost use Rattle.std.specs.Prelude.{[], false, OnOk};
ghost use Rattle.world_model.specs.declared.limits.TheConstants.{MAX_TENURE};
ghost use Rattle.world_model.specs.Lists.{behind_first, first_in};
ghost use Rattle.world_model.specs.Stations.{new_tenure};
ghost use Rattle.world_model.specs.World.{new_spot};

use octets::Memory;
use std::alloc::Global;
use std::collections::VecDeque;
use std::marker::Model;
use world_model::AirMessage;

/// A channel of a station. The station's end, not the channel, keeps whether the channel is active.
#[derive(Drop)]
pub(crate) struct RadioChannel {
    /// The number of the channel's last tenure, which is the present one while the channel is
    /// active; 0 before the first.
    tenure: u64,
    /// Whether the data link of SAPI 3 is up.
    sapi_three_up: bool,
    /// The messages that wait to be sent to the mobile.
    air: VecDeque<AirMessage>,
    /// How many measurement reports arrived in the last tenure, modulo 256.
    reports: u8,
}

impl Model for RadioChannel {
    ghost use Rattle.world_model.specs.World.{Spot};

    ghost Value = { Spot };

    ghost view = { λ c. record {
      tenure = c.tenure;
      sapi_three_up = c.sapi_three_up;
      air = c.air.items;
      reports = c.reports;
    } };
}

impl RadioChannel {
    /// A channel that was never active. Allocates nothing.
    pub(crate) fn new(alloc: Global) -> RadioChannel
        ensures { result ≡ new_spot }
    {
        RadioChannel {
            tenure: 0,
            sapi_three_up: false,
            air: VecDeque::new(alloc),
            reports: 0,
        }
    }

    pub(crate) fn tenure(&self) -> u64
        ensures { result ≡ self.now.tenure }
    {
        self.tenure
    }

    pub(crate) fn is_sapi_three_up(&self) -> bool
        ensures { result ≡ self.now.sapi_three_up }
    {
        self.sapi_three_up
    }

    pub(crate) fn reports(&self) -> u8
        ensures { result ≡ self.now.reports }
    {
        self.reports
    }

    /// Begins a new tenure: increments the number of the tenure, discards the messages that wait
    /// for the air, sets the count of reports to 0, and takes the data link of SAPI 3 down.
    /// Assumes: the number of the last tenure isn't `MAX_TENURE`.
    pub(crate) fn begin_tenure(&mut self)
        requires { self.old.tenure ≢ MAX_TENURE }
        ensures { self.new ≡ new_tenure self.old }
    {
        self.tenure += 1;
        self.sapi_three_up = false;
        self.air.clear();
        self.reports = 0;
    }

    pub(crate) fn set_sapi_three(&mut self, up: bool)
        ensures { self.new ≡ record self.old { sapi_three_up = up } }
    {
        self.sapi_three_up = up;
    }

    /// Discards the messages that wait for the air and takes the data link of SAPI 3 down, since
    /// the channel was left or released.
    pub(crate) fn clear(&mut self)
        ensures { self.new ≡ record self.old { air = []; sapi_three_up = false } }
    {
        self.air.clear();
        self.sapi_three_up = false;
    }

    /// Appends a message to those that wait for the air.
    pub(crate) fn put(&mut self, message: AirMessage) -> Result<(), Memory>
        ensures { OnOk result (self.new ≡ record self.old { air = self.old.air ++ message ∷ [] }) }
    {
        self.air.push_back(message)?;
        Ok(())
    }

    /// Takes the first message that waits for the air; `None` if no message waits.
    pub(crate) fn take(&mut self) -> Option<AirMessage>
        ensures message { result ≡ first_in self.old.air }
        ensures after { self.new ≡ record self.old { air = behind_first self.old.air } }
    {
        self.air.pop_front()
    }

    /// Counts a measurement report, modulo 256.
    pub(crate) fn count_report(&mut self)
        ensures { self.new ≡ record self.old { reports = (self.old.reports + 1) % 256 } }
    {
        self.reports = self.reports.wrapping_add(1);
    }
}
