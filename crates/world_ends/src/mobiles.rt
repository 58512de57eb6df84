// SPDX-License-Identifier: MIT OR Apache-2.0
ghost use Rattle.std.specs.Prelude.{◌≡◌, ◌∷◌, [], ◌++◌, IsSome, IfSome, IfOk, None};
ghost use Rattle.std.specs.Prelude.{OnOk, OnErr, replicate, true, unwrap_or, option_map};
ghost use Rattle.std.specs.List.{find};
ghost use Rattle.std.specs.Option.{option_and_then};
ghost use Rattle.dtap_codec.specs.Number.{count_of};
ghost use Rattle.mobile_end.specs.Lawful.{is_initial};
ghost use Rattle.rsl_codec.specs.Rsl.{IsL3};
ghost use Rattle.world_model.specs.Mobiles.{complete, connected, failure, hearing};
ghost use Rattle.world_model.specs.Stations.{accepts, is_on};
ghost use Rattle.world_model.specs.Takes.{Takes};
ghost use Rattle.world_ends.specs.Mobiles.{acknowledging, arriving, assigned_to};
ghost use Rattle.world_ends.specs.Mobiles.{at_mobile, by_mobile, frame_of, is_moving};
ghost use Rattle.world_ends.specs.Mobiles.{leaving, mobile_in, place_in, sending, taking};

use crate::mobile_station::MobileStation;
use conn_messages::Change;
use dtap_codec::{Modulus, Sapi};
use octets::{Memory, Octets};
use std::alloc::Global;
use std::marker::Model;
use world_model::{AirMessage, Command, Tenure};

/// How many values the number of a mobile can have.
const NUMBERS: usize = 256;

/// The mobiles of a world, in the order in which they connected. Each call except `connect` changes
/// nothing if no mobile has the number. An `Err` is an allocation failure, after which nothing is
/// known of the mobiles.
#[derive(Drop)]
pub struct Mobiles {
    alloc: Global,
    modulus: Modulus,
    /// For each number the place of the first mobile that has it; `None` if no mobile has it.
    places: [Option<usize>; NUMBERS],
    mobiles: Vec<MobileStation>,
}

impl Model for Mobiles {
    ghost use Rattle.dtap_codec.specs.Number.{count_of};
    ghost use Rattle.world_ends.specs.Index.{IsIndex};
    ghost use Rattle.world_ends.specs.MobilesState.{MobilesState};

    ghost Value = { MobilesState };

    ghost view = { λ m. record { modulus = count_of m.modulus; mobiles = m.mobiles.items } };

    ghost invariant = { λ m. IsIndex m.places m.mobiles.items };
}

impl Mobiles {
    /// The mobiles of a world before any connected. Mobiles number the messages of their flows by
    /// `modulus`. Allocates nothing.
    pub fn new(alloc: Global, modulus: Modulus) -> Mobiles
        ensures { result ≡ record { modulus = count_of modulus; mobiles = [] } }
    {
        Mobiles {
            alloc,
            modulus,
            places: no_places(),
            mobiles: Vec::new(alloc),
        }
    }

    /// The first mobile with this number; `None` if no mobile has it.
    pub fn get(&self, number: u8) -> Option<&MobileStation>
        ensures { option_map (λ m. m.now) result ≡ mobile_in number self.now.mobiles }
    {
        self.mobiles.get(self.place_of(number))
    }

    // The place of the first mobile with this number; the place after the last mobile if no mobile
    // has it.
    fn place_of(&self, number: u8) -> usize
        ensures { result ≡ place_in number self.now.mobiles }
    {
        self.places[usize::from(number)].unwrap_or(self.mobiles.len())
    }

    // The first mobile on the channel of this tenure, in this tenure; `None` if there is no such
    // mobile.
    fn on(&self, tenure: &Tenure) -> Option<&MobileStation>
        ensures { option_map (λ m. m.now) result ≡
            find (λ p. is_on tenure.now p.seat) self.now.mobiles }
    {
        self.mobiles.iter().find(|mobile| mobile.is_on(tenure))
    }

    /// Whether the first mobile on the channel of this tenure accepts the data link of SAPI 3;
    /// `false` if no mobile is there.
    pub fn accepts_sapi_three(&self, tenure: &Tenure) -> bool
        ensures { result ≡ accepts (find (λ p. is_on tenure.now p.seat) self.now.mobiles) }
    {
        match self.on(tenure) {
            Some(mobile) => mobile.accepts_sapi_three(),
            None => false,
        }
    }

    /// Appends a new mobile, which asks for a channel and whose first message is `initial`.
    /// Assumes: `initial` is of mobility management or of radio resource management (`is_initial`).
    pub fn connect(
        &mut self,
        number: u8,
        initial: &[u8],
        accepts_sapi_three: bool,
    ) -> Result<(), Memory>
        requires { is_initial initial.now ≡ true }
        ensures { OnOk result (self.new ≡ record self.old {
          mobiles = self.old.mobiles
              ++ connected self.old.modulus number initial.now accepts_sapi_three ∷ [];
        }) }
    {
        let mobile = MobileStation::connected(
            self.alloc,
            self.modulus,
            number,
            initial,
            accepts_sapi_three,
        )?;
        let first = self.place_of(number);
        self.mobiles.push(mobile)?;
        self.places[usize::from(number)] = Some(first);
        Ok(())
    }

    /// The upper layers of a mobile send a message. Returns `false`, and changes nothing, if there
    /// is no such mobile, if the mobile is neither on a channel nor moving, or if its end refuses
    /// the message.
    pub fn send(&mut self, number: u8, sapi: Sapi, message: &[u8]) -> Result<bool, Memory>
        ensures ok { IfOk result (λ taken.
            Takes self.old (by_mobile number (sending sapi message.now) self.old) taken self.new) }
        ensures memory { OnErr result
            (IsSome (by_mobile number (sending sapi message.now) self.old)) }
    {
        let place = self.place_of(number);
        let Some(mobile) = self.mobiles.get_mut(place) else {
            return Ok(false);
        };
        mobile.send(self.alloc, sapi, message)
    }

    /// The station takes the frame that a mobile has in the air on `sapi`, which has 1 to 251
    /// octets. Returns `None`, and changes nothing, if the station can take no frame.
    pub fn frame(&mut self, number: u8, sapi: Sapi) -> Result<Option<Octets>, Memory>
        ensures frame { IfOk result (λ frame.
            frame ≡ option_and_then (frame_of sapi) (mobile_in number self.old.mobiles)) }
        ensures l3 { IfOk result IsL3 }
        ensures after { OnOk result
            (self.new ≡ unwrap_or (by_mobile number (taking sapi) self.old) self.old) }
        ensures memory { OnErr result
            (IsSome (option_and_then (frame_of sapi) (mobile_in number self.old.mobiles))) }
    {
        let place = self.place_of(number);
        let Some(mobile) = self.mobiles.get_mut(place) else {
            return Ok(None);
        };
        mobile.frame(self.alloc, sapi)
    }

    /// The station acknowledges the frame that it took from a mobile on `sapi`. Returns `false`,
    /// and changes nothing, if there is no such mobile, if the mobile is between two channels, or
    /// if no frame was taken that isn't acknowledged yet.
    pub fn acknowledge(&mut self, number: u8, sapi: Sapi) -> bool
        ensures { Takes self.old (by_mobile number (acknowledging sapi) self.old) result self.new }
    {
        let place = self.place_of(number);
        let Some(mobile) = self.mobiles.get_mut(place) else {
            return false;
        };
        mobile.acknowledge(sapi)
    }

    /// A mobile takes a message from the air. The mobile keeps DTAP as received and remembers a
    /// command of the controller; after a CHANNEL RELEASE it is `Gone`. Any other message is
    /// ignored.
    pub fn hear(&mut self, number: u8, heard: AirMessage) -> Result<(), Memory>
        ensures { OnOk result (self.new ≡ at_mobile number (λ p. hearing p heard) self.old) }
    {
        let place = self.place_of(number);
        match self.mobiles.get_mut(place) {
            Some(mobile) => mobile.hear(self.alloc, heard),
            None => Ok(()),
        }
    }

    /// A mobile leaves its channel, `from`, on this command.
    pub fn leave(&mut self, number: u8, from: Tenure, command: Command)
        ensures { self.new ≡ at_mobile number (leaving from command) self.old }
    {
        let place = self.place_of(number);
        if let Some(mobile) = self.mobiles.get_mut(place) {
            mobile.leave(from, command);
        }
    }

    /// A mobile arrives on the channel of `tenure` after a change and sends COMPLETE first.
    /// Assumes: the mobile is moving.
    pub fn arrive(&mut self, number: u8, tenure: Tenure, change: Change) -> Result<(), Memory>
        requires { IfSome (mobile_in number self.old.mobiles) (λ p. is_moving p.seat ≡ true) }
        ensures { OnOk result
            (self.new ≡ at_mobile number (arriving tenure (complete change)) self.old) }
    {
        let place = self.place_of(number);
        match self.mobiles.get_mut(place) {
            Some(mobile) => mobile.arrive(self.alloc, tenure, change),
            None => Ok(()),
        }
    }

    /// A mobile returns to the channel of `tenure`, which it left, and sends FAILURE first.
    /// Assumes: the mobile is moving.
    pub fn give_up(&mut self, number: u8, tenure: Tenure, change: Change) -> Result<(), Memory>
        requires { IfSome (mobile_in number self.old.mobiles) (λ p. is_moving p.seat ≡ true) }
        ensures { OnOk result
            (self.new ≡ at_mobile number (arriving tenure (failure change)) self.old) }
    {
        let place = self.place_of(number);
        match self.mobiles.get_mut(place) {
            Some(mobile) => mobile.give_up(self.alloc, tenure, change),
            None => Ok(()),
        }
    }

    /// Puts a mobile on the channel of `tenure`, which was assigned to it at its request.
    pub fn assign(&mut self, number: u8, tenure: Tenure)
        ensures { self.new ≡ at_mobile number (assigned_to tenure) self.old }
    {
        let place = self.place_of(number);
        if let Some(mobile) = self.mobiles.get_mut(place) {
            mobile.assign(tenure);
        }
    }
}

// The places if no number has a mobile.
fn no_places() -> [Option<usize>; NUMBERS]
    ensures { result ≡ replicate 256 None }
{
    [None; NUMBERS]
}
