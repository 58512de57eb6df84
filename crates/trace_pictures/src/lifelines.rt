// SPDX-License-Identifier: MIT OR Apache-2.0
use octets::Memory;
use std::alloc::Global;
use world_model::Event;
use world_trace::End;

/// The lifelines of a chart, from left to right: the mobiles in the order of their first events,
/// the stations, the controller, and the switch.
#[derive(Drop)]
pub(crate) struct Lifelines {
    mobiles: Vec<u8>,
    cells: u16,
}

impl Lifelines {
    /// The lifelines of `cells` stations, and of the mobiles that the events name.
    pub(crate) fn of(alloc: Global, cells: u16, events: &[Event]) -> Result<Lifelines, Memory> {
        let mut mobiles = Vec::new(alloc);
        for event in events {
            if let Some(number) = mobile_of(event) {
                add_mobile(number, &mut mobiles)?;
            }
        }
        Ok(Lifelines { mobiles, cells })
    }

    /// The labels above the lifelines, from left to right.
    pub(crate) fn labels(&self, alloc: Global) -> Result<Vec<Vec<u8>>, Memory> {
        let mut labels = Vec::new(alloc);
        for number in self.mobiles.as_slice() {
            labels.push(label(alloc, "mobile ", u16::from(*number))?)?;
        }
        self.add_others(alloc, &mut labels)?;
        Ok(labels)
    }

    /// Appends the labels of the stations, the controller and the switch.
    fn add_others(&self, alloc: Global, labels: &mut Vec<Vec<u8>>) -> Result<(), Memory> {
        for number in 1..=self.cells {
            labels.push(label(alloc, "station ", number)?)?;
        }
        labels.push(Vec::from_slice(alloc, b"bsc")?)?;
        labels.push(Vec::from_slice(alloc, b"switch")?)?;
        Ok(())
    }

    /// The place of the lifeline of an end of a link, counted from 0.
    pub(crate) fn end(&self, end: End) -> usize {
        match end {
            End::Switch => self.switch(),
            End::Station(number) => self.station(number),
            End::Controller => self.controller(),
        }
    }

    /// The place of the lifeline of an event's actor, counted from 0. The mobile counts as the
    /// actor of an event between a mobile and its station.
    pub(crate) fn actor(&self, event: &Event) -> usize {
        match event {
            Event::BaseTakes(station) => self.station(*station),
            Event::BasePush(source) => self.source(*source),
            Event::BaseDown(source) => self.source(*source),
            Event::SwitchTakes => self.switch(),
            Event::SwitchDoes(_) => self.switch(),
            _ => match mobile_of(event) {
                Some(number) => self.mobile(number),
                None => self.controller(),
            },
        }
    }

    fn mobile(&self, number: u8) -> usize {
        let mut place = 0_usize;
        for mobile in self.mobiles.as_slice() {
            if *mobile == number {
                return place;
            }
            place = place.saturating_add(1);
        }
        place
    }

    fn station(&self, number: u16) -> usize {
        let before = usize::from(number.saturating_sub(1));
        self.mobiles.len().saturating_add(before)
    }

    fn controller(&self) -> usize {
        self.mobiles.len().saturating_add(usize::from(self.cells))
    }

    fn switch(&self) -> usize {
        self.controller().saturating_add(1)
    }

    /// The place of the lifeline of a source of the controller. Source 0 is the switch.
    fn source(&self, number: u16) -> usize {
        if number == 0 {
            self.switch()
        } else {
            self.station(number)
        }
    }
}

/// The mobile that acts at an event, or with which its station acts over the air; `None` if the
/// event has no such mobile.
fn mobile_of(event: &Event) -> Option<u8> {
    match event {
        Event::Upper { mobile, .. } => Some(*mobile),
        Event::Connect { mobile, .. } => Some(*mobile),
        Event::AirUp { mobile, .. } => Some(*mobile),
        Event::AirAck { mobile, .. } => Some(*mobile),
        Event::AirDown(mobile) => Some(*mobile),
        Event::AirDownLost(mobile) => Some(*mobile),
        Event::Move(mobile) => Some(*mobile),
        Event::Touch(mobile) => Some(*mobile),
        Event::Arrive(mobile) => Some(*mobile),
        Event::Return(mobile) => Some(*mobile),
        Event::Report { mobile, .. } => Some(*mobile),
        _ => None,
    }
}

fn add_mobile(number: u8, mobiles: &mut Vec<u8>) -> Result<(), Memory> {
    if !mobiles.contains(&number) {
        mobiles.push(number)?;
    }
    Ok(())
}

fn label(alloc: Global, word: &str, number: u16) -> Result<Vec<u8>, Memory> {
    let label = format!(in alloc; "{word}{number}")?;
    Ok(Vec::from_slice(alloc, label.as_bytes())?)
}
