// SPDX-License-Identifier: MIT OR Apache-2.0
ghost use Rattle.std.specs.Prelude.{IsSome, ◌≡◌, ◌++◌, ◌∷◌, List, [], false, true};
ghost use Rattle.std.specs.Prelude.{IfOk, OnOk, OnErr};
ghost use Rattle.dtap_codec.specs.Number.{count_of};
ghost use Rattle.settings.specs.Parameters.{Parameters};
ghost use Rattle.world_model.specs.declared.event.Event.{Event as WorldEvent};
ghost use Rattle.world_model.specs.Takes.{Takes};
ghost use Rattle.world.specs.Beside.{MakesTheSame, is_up_in, is_up_and_beside};
ghost use Rattle.world.specs.WorldState.{WorldState};
ghost use Rattle.world.specs.World.{fixed_world, controlled_world};
ghost use Rattle.world.specs.World.{scene_after, is_taken, after, after_all, broken};
ghost use Rattle.world.specs.Views.{Lends, sent_list, received_list, taken_list};
ghost use Rattle.world.specs.Views.{accepted_list, unnumbered_list};
ghost use Rattle.world.specs.Headline.{Begins, IsInOrder, IsMadeBy, QueuesKeepOrder};

use crate::Event;
use crate::fixed::{FIXED_CONNECTION, FIXED_MOBILE, FixedWorld};
use crate::of_octets::{are_of_octets, is_of_octets};
use crate::passing::is_beside;
use dtap_codec::Modulus;
use octets::{Memory, Octets};
use settings::Settings;
use std::alloc::Global;
use std::marker::Model;
use world_actors::Network;

/// The actors of a world.
#[derive(Drop)]
pub(crate) enum Scene {
    /// One mobile on one fixed channel, without a controller.
    Fixed(FixedWorld),
    /// Mobiles, base stations, the controller with its queues, and the switch.
    Controlled(Network),
}

/// A world: its actors, the count of events that no actor could take, and whether an allocation
/// failed.
#[derive(Drop)]
pub struct World {
    scene: Scene,
    not_taken: u64,
    /// Whether an allocation failed at an event. Once one failed, nothing is known of the actors.
    failed: bool,
}

impl Model for World {
    ghost use Rattle.world.specs.WorldState.{WorldState};

    ghost Value = { WorldState };

    ghost view = { λ world. record {
      scene = world.scene;
      not_taken = world.not_taken;
      failed = world.failed;
    } };
}

impl World {
    /// The fixed world before any event. Mobile 1 is connected without an initial message. The
    /// frames that the station takes from mobile 1 on SAPI 0 are relayed through the switch's
    /// outbox to connection 1 of the switch. Allocates nothing.
    pub fn fixed(alloc: Global, modulus: Modulus) -> World
        ensures world { result ≡ fixed_world (count_of modulus) }
        ensures begins { Begins result }
        ensures made { IsMadeBy result [] result }
    {
        World {
            scene: Scene::Fixed(FixedWorld::new(alloc, modulus)),
            not_taken: 0,
            failed: false,
        }
    }

    /// The world with a controller for these settings, before any event: there is no mobile, and
    /// each link is up. Mobiles and the switch number messages as the network of the settings does.
    /// `Memory` on allocation failure.
    pub fn new(alloc: Global, settings: Settings) -> Result<World, Memory>
        ensures world { IfOk result (λ world. world ≡ controlled_world settings) }
        ensures begins { IfOk result (λ world. Begins world) }
        ensures made { IfOk result (λ world. IsMadeBy (controlled_world settings) [] world) }
    {
        Ok(World {
            scene: Scene::Controlled(Network::new(alloc, settings)?),
            not_taken: 0,
            failed: false,
        })
    }

    /// The world with a controller after these events and one break of the link of `source`. The
    /// link breaks before the event at `place`, counted from 0, or after the last event if no event
    /// has this place. `source` is 0 for the switch, or the number of a station. If there is no
    /// such source, the break is an event that isn't taken. `Memory` on allocation failure.
    pub fn with_break(
        alloc: Global,
        settings: Settings,
        events: &[Event],
        place: usize,
        source: u16,
    ) -> Result<World, Memory>
        ensures world { IfOk result (λ world.
            world ≡ after_all (controlled_world settings) (broken events.now place source)) }

        // The world is made from a beginning by events that carry octets, and is thus in order.
        ensures begins { Begins (controlled_world settings) }
        ensures made { IfOk result (λ world. IsMadeBy (controlled_world settings)
            (broken events.now place source) world) }
        ensures in_order { IfOk result (λ world. IsInOrder (controlled_world settings).scene
            (broken events.now place source) world.scene) }
    {
        are_of_octets(events);
        World::broken(alloc, settings, events, place, source)
    }

    // The world after these events, with a break of the link of `source` before the event at
    // `place`.
    fn broken(
        alloc: Global,
        settings: Settings,
        events: &[Event],
        place: usize,
        source: u16,
    ) -> Result<World, Memory>
        ensures world { IfOk result (λ world.
            world ≡ after_all (controlled_world settings) (broken events.now place source)) }
    {
        let mut world = World::new(alloc, settings)?;
        match world.run_to_break(events, place, source) {
            Ok(()) => Ok(world),
            Err(Memory) => {
                drop(world);
                Err(Memory)
            }
        }
    }

    // Lets the actors of these events act, in order, and breaks the link of `source` before the
    // event at `place`.
    fn run_to_break(&mut self, events: &[Event], place: usize, source: u16) -> Result<(), Memory>
        ensures { OnOk result (self.new ≡ after_all self.old (broken events.now place source)) }
    {
        let (before, others) = events.split_at(place.min(events.len()));
        self.run(before)?;
        self.step(Event::BaseDown(source))?;
        self.run(others)
    }

    /// Lets the actor of the event act. Returns whether the actor took the event; if not, the event
    /// is counted, and nothing else changes. `Memory` on allocation failure, which is only possible
    /// for an event that the actor can take. The world has then failed, and each later call returns
    /// `Memory`, too.
    pub fn step(&mut self, event: Event) -> Result<bool, Memory>
        ensures ok { OnOk result (self.new ≡ after self.old event) }
        ensures taken { IfOk result (λ taken. taken ≡ is_taken self.old.scene event) }
        ensures unfailed { OnOk result (self.old.failed ≡ false) }
        ensures failed { OnErr result (self.new.failed ≡ true) }
        ensures memory { OnErr result
            (self.old.failed ≡ false → IsSome (scene_after self.old.scene event)) }

        // If events made the world from a beginning, the same events and this one make the new
        // world, which is thus in order.
        ensures made { OnOk result ((begin : WorldState) (before : List WorldEvent)
            → IsMadeBy begin before self.old → IsMadeBy begin (before ++ event ∷ []) self.new) }
        ensures in_order { OnOk result ((begin : WorldState) (before : List WorldEvent)
            → IsMadeBy begin before self.old
            → IsInOrder begin.scene (before ++ event ∷ []) self.new.scene) }
    {
        is_of_octets(&event);
        self.act(&event)
    }

    /// Lets the actors of these events act, in order. An event that its actor can't take is
    /// counted, and changes nothing else. `Memory` as for `step`; the events after the failure
    /// aren't taken.
    pub fn run(&mut self, events: &[Event]) -> Result<(), Memory>
        ensures ok { OnOk result (self.new ≡ after_all self.old events.now) }

        // If events made the world from a beginning, the same events and these make the new world,
        // since all events of the code carry octets. The messages that the switch accepts on a
        // connection are then a prefix of those that the connection's mobile sent. With a
        // controller, the messages that the switch took on a connection begin with the message with
        // which its mobile connected. No filter ever finds a gap, and each queue is first in, first
        // out.
        ensures made { OnOk result ((begin : WorldState) (before : List WorldEvent)
            → IsMadeBy begin before self.old → IsMadeBy begin (before ++ events.now) self.new) }
        ensures in_order { OnOk result ((begin : WorldState) (before : List WorldEvent)
            → IsMadeBy begin before self.old
            → IsInOrder begin.scene (before ++ events.now) self.new.scene) }

        // If events made the world from a world with a controller, for any settings, each queue is
        // first in, first out. The messages of the switch's connections are those that the entries
        // taken out of its outbox give.
        ensures queues { OnOk result ((settings : Parameters) (before : List WorldEvent)
            → self.old ≡ after_all (controlled_world settings) before
            → QueuesKeepOrder (controlled_world settings).scene (before ++ events.now)
            self.new.scene) }
        ensures unfailed { OnOk result (self.old.failed ≡ false) }
        ensures failed { OnErr result (self.new.failed ≡ true) }
    {
        if self.failed {
            return Err(Memory);
        }
        are_of_octets(events);
        for event in events {
            self.act(event)?;
        }
        Ok(())
    }

    /// Lets the actor of the event act. Returns `true` if a break of the link of `source` before
    /// the event is known to have the same result as a break after the event; `false` says nothing.
    /// `Memory` as for `step`.
    pub fn pass(&mut self, event: &Event, source: u16) -> Result<bool, Memory>
        ensures ok { OnOk result (self.new ≡ after self.old event.now) }
        ensures same { IfOk result (λ same.
            same ≡ true → MakesTheSame self.old event.now source) }
        ensures failed { OnErr result (self.new.failed ≡ true) }
        ensures memory { OnErr result
            (self.old.failed ≡ false → IsSome (scene_after self.old.scene event.now)) }
    {
        let beside = self.is_up_and_beside(event, source);
        self.act(event)?;
        Ok(beside && self.is_up(source))
    }

    // Whether the link of the source is up and its break can change places with the event.
    fn is_up_and_beside(&self, event: &Event, source: u16) -> bool
        ensures { result ≡ is_up_and_beside self.now.scene event.now source }
    {
        match &self.scene {
            Scene::Fixed(_) => false,
            Scene::Controlled(network) => {
                network.is_up(source) && is_beside(network, event, source)
            }
        }
    }

    fn is_up(&self, source: u16) -> bool
        ensures { result ≡ is_up_in self.now.scene source }
    {
        match &self.scene {
            Scene::Fixed(_) => false,
            Scene::Controlled(network) => network.is_up(source),
        }
    }

    fn act(&mut self, event: &Event) -> Result<bool, Memory>
        ensures ok { OnOk result (self.new ≡ after self.old event.now) }
        ensures taken { IfOk result (λ taken. taken ≡ is_taken self.old.scene event.now) }
        ensures unfailed { OnOk result (self.old.failed ≡ false) }
        ensures failed { OnErr result (self.new.failed ≡ true) }
        ensures memory { OnErr result
            (self.old.failed ≡ false → IsSome (scene_after self.old.scene event.now)) }
    {
        if self.failed {
            return Err(Memory);
        }
        match self.scene.take(event) {
            Ok(true) => Ok(true),
            Ok(false) => {
                self.not_taken = self.not_taken.saturating_add(1);
                Ok(false)
            }
            Err(memory) => {
                self.failed = true;
                Err(memory)
            }
        }
    }

    /// The messages of the flow that the upper layers of a mobile sent, in order, without numbers;
    /// `None` if no mobile has this number.
    pub fn sent(&self, mobile: u8) -> Option<&[Octets]>
        ensures { Lends result (sent_list self.now.scene mobile) }
    {
        match &self.scene {
            Scene::Fixed(fixed) if mobile == FIXED_MOBILE => Some(fixed.sent()),
            Scene::Fixed(_) => None,
            Scene::Controlled(network) => network.sent(mobile),
        }
    }

    /// The messages that a mobile received, in order; `None` if no mobile has this number.
    pub fn received(&self, mobile: u8) -> Option<&[Octets]>
        ensures { Lends result (received_list self.now.scene mobile) }
    {
        match &self.scene {
            Scene::Fixed(_) if mobile == FIXED_MOBILE => Some(&[]),
            Scene::Fixed(_) => None,
            Scene::Controlled(network) => network.received(mobile),
        }
    }

    /// All messages that the switch took on a connection, in order; `None` if the switch has no
    /// such connection.
    pub fn taken(&self, connection: u32) -> Option<&[Octets]>
        ensures { Lends result (taken_list self.now.scene connection) }
    {
        match &self.scene {
            Scene::Fixed(fixed) if connection == FIXED_CONNECTION => Some(fixed.taken()),
            Scene::Fixed(_) => None,
            Scene::Controlled(network) => network.taken(connection),
        }
    }

    /// The messages of the flow that the switch accepted on a connection, in order, with numbers
    /// cleared; `None` if the switch has no such connection.
    pub fn accepted(&self, connection: u32) -> Option<&[Octets]>
        ensures { Lends result (accepted_list self.now.scene connection) }
    {
        match &self.scene {
            Scene::Fixed(fixed) if connection == FIXED_CONNECTION => Some(fixed.accepted()),
            Scene::Fixed(_) => None,
            Scene::Controlled(network) => network.accepted(connection),
        }
    }

    /// The messages without numbers that the switch took on a connection, in order; `None` if the
    /// switch has no such connection.
    pub fn unnumbered(&self, connection: u32) -> Option<&[Octets]>
        ensures { Lends result (unnumbered_list self.now.scene connection) }
    {
        match &self.scene {
            Scene::Fixed(fixed) if connection == FIXED_CONNECTION => Some(fixed.unnumbered()),
            Scene::Fixed(_) => None,
            Scene::Controlled(network) => network.unnumbered(connection),
        }
    }

    /// The count of events that no actor could take. The count saturates.
    pub fn not_taken(&self) -> u64
        ensures { result ≡ self.now.not_taken }
    {
        self.not_taken
    }
}

impl Scene {
    fn take(&mut self, event: &Event) -> Result<bool, Memory>
        ensures ok { IfOk result (λ taken.
            Takes self.old (scene_after self.old event.now) taken self.new) }
        ensures memory { OnErr result (IsSome (scene_after self.old event.now)) }
    {
        match self {
            Scene::Fixed(fixed) => fixed.take(event),
            Scene::Controlled(network) => network.step(event),
        }
    }
}
