// SPDX-License-Identifier: MIT OR Apache-2.0
ghost use Rattle.std.specs.Prelude.{◌≡◌, ◌⊎◌, IfOk};
ghost use Rattle.program_base.specs.Words.{Reads, mobile_in, station_in, source_in, any_number_in};
ghost use Rattle.program_base.specs.ScriptReading.{GivesEvent, kind_in, kind_of_shape, action_in};
ghost use Rattle.program_base.specs.ScriptReading.{last_at};
ghost use Rattle.program_base.specs.ScriptReading.{mobile_and_sapi_in, upper_at, connect_at};
ghost use Rattle.program_base.specs.ScriptReading.{report_at, dtap_at, switch_does_at, event_at};
ghost use Rattle.program_base.specs.ScriptReading.{line_at};
ghost use Rattle.program_base.specs.Script.{IsLine, name_of};
ghost use Rattle.world_model.specs.declared.event.Event.{Event as WorldEvent};

use crate::line_fault::{BadEvent, LineFault};
use crate::line_words::Words;
use dtap_codec::Sapi;
use std::alloc::Global;
use world_model::{Event, SwitchAction};

/// The kinds of script line, by their first word.
#[derive(Clone, Copy)]
pub(crate) enum Kind {
    Upper,
    Connect,
    AirUp,
    AirAck,
    AirDown,
    AirDownLost,
    Move,
    Touch,
    Arrive,
    Return,
    BaseTakes,
    BasePush,
    Handle,
    SwitchTakes,
    SwitchDoes,
    Tick,
    BaseDown,
    Report,
}

/// The actions of the switch, by the second word of a `switchdoes` line.
#[derive(Clone, Copy)]
pub(crate) enum Action {
    Assign,
    Clear,
    Dtap,
}

/// The action with this name, or `BadEvent` if no action has this name.
#[tactic(auto, unfolding(crate::specs::ScriptReading::action_in))]
pub(crate) fn action_in(word: &[u8]) -> Result<Action, BadEvent>
    ensures { Reads (λ action. action) result (action_in word.now) }
{
    match word {
        b"assign" => Ok(Action::Assign),
        b"clear" => Ok(Action::Clear),
        b"dtap" => Ok(Action::Dtap),
        _ => Err(BadEvent),
    }
}

impl Kind {
    /// The first word of a line of this kind.
    fn name(self) -> &'static str
        ensures { result.now ≡ name_of self }
    {
        match self {
            Kind::Upper => "upper",
            Kind::Connect => "connect",
            Kind::AirUp => "airup",
            Kind::AirAck => "airack",
            Kind::AirDown => "airdown",
            Kind::AirDownLost => "airdownlost",
            Kind::Move => "move",
            Kind::Touch => "touch",
            Kind::Arrive => "arrive",
            Kind::Return => "return",
            Kind::BaseTakes => "basetakes",
            Kind::BasePush => "basepush",
            Kind::Handle => "handle",
            Kind::SwitchTakes => "switchtakes",
            Kind::SwitchDoes => "switchdoes",
            Kind::Tick => "tick",
            Kind::BaseDown => "basedown",
            Kind::Report => "report",
        }
    }

    /// The kind whose name has `length` octets, the last but two of which is `last_but_two`; `None`
    /// if there is no such kind. No two names agree in the length and in that octet.
    #[tactic(auto, unfolding(crate::specs::ScriptReading::kind_of_shape))]
    fn of_shape(length: usize, last_but_two: u8) -> Option<Kind>
        ensures { result ≡ kind_of_shape length last_but_two }
    {
        match (length, last_but_two) {
            (5, b'p') => Some(Kind::Upper),
            (7, b'e') => Some(Kind::Connect),
            (5, b'r') => Some(Kind::AirUp),
            (6, b'a') => Some(Kind::AirAck),
            (7, b'o') => Some(Kind::AirDown),
            (11, b'o') => Some(Kind::AirDownLost),
            (4, b'o') => Some(Kind::Move),
            (5, b'u') => Some(Kind::Touch),
            (6, b'i') => Some(Kind::Arrive),
            (6, b'u') => Some(Kind::Return),
            (9, b'k') => Some(Kind::BaseTakes),
            (8, b'u') => Some(Kind::BasePush),
            (6, b'd') => Some(Kind::Handle),
            (11, b'k') => Some(Kind::SwitchTakes),
            (10, b'o') => Some(Kind::SwitchDoes),
            (4, b'i') => Some(Kind::Tick),
            (8, b'o') => Some(Kind::BaseDown),
            (6, b'o') => Some(Kind::Report),
            _ => None,
        }
    }
}

/// The kind of line that begins with this word, or `BadEvent` if no line begins with this word. The
/// word is compared with one name at most.
pub(crate) fn kind_in(word: &[u8]) -> Result<Kind, BadEvent>
    ensures { Reads (λ kind. kind) result (kind_in word.now) }
{
    if word.len() < 3 {
        return Err(BadEvent);
    }
    match Kind::of_shape(word.len(), word[word.len() - 3]) {
        Some(kind) if word == kind.name().as_bytes() => Ok(kind),
        _ => Err(BadEvent),
    }
}

/// Reads the words after `upper`.
#[tactic(auto, unfolding(crate::specs::ScriptReading::upper_at))]
fn upper(alloc: Global, mut words: Words<'_>) -> Result<Event, LineFault>
    ensures { GivesEvent result (upper_at words.entry) }
{
    let mobile = words.mobile()?;
    let sapi = words.sapi()?;
    let message = words.octets()?;
    words.end()?;
    let message = message.decode(alloc)?;
    Ok(Event::Upper {
        mobile,
        sapi,
        message,
    })
}

/// Reads the words after `connect`.
#[tactic(auto, unfolding(crate::specs::ScriptReading::connect_at))]
fn connect(alloc: Global, cells: u16, mut words: Words<'_>) -> Result<Event, LineFault>
    ensures { GivesEvent result (connect_at cells words.entry) }
{
    let mobile = words.mobile()?;
    let station = words.station(cells)?;
    let initial = words.octets()?;
    let accepts_sapi_three = words.answer()?;
    words.end()?;
    let initial = initial.decode(alloc)?;
    Ok(Event::Connect {
        mobile,
        station,
        initial,
        accepts_sapi_three,
    })
}

/// Reads the words after `report`.
#[tactic(auto, unfolding(crate::specs::ScriptReading::report_at))]
fn report(alloc: Global, mut words: Words<'_>) -> Result<Event, LineFault>
    ensures { GivesEvent result (report_at words.entry) }
{
    let mobile = words.mobile()?;
    let report = words.octets()?;
    words.end()?;
    let report = report.decode(alloc)?;
    Ok(Event::Report { mobile, report })
}

/// Reads the words after `dtap`.
#[tactic(auto, unfolding(crate::specs::ScriptReading::dtap_at))]
fn dtap(alloc: Global, mut words: Words<'_>) -> Result<Event, LineFault>
    ensures { GivesEvent result (dtap_at words.entry) }
{
    let connection = words.any_number()?;
    let sapi = words.sapi()?;
    let message = words.octets()?;
    words.end()?;
    let message = message.decode(alloc)?;
    Ok(Event::SwitchDoes(SwitchAction::Dtap {
        connection,
        sapi,
        message,
    }))
}

/// Reads the words after `switchdoes`.
#[tactic(auto, unfolding(crate::specs::ScriptReading::switch_does_at))]
fn switch_does(alloc: Global, mut words: Words<'_>) -> Result<Event, LineFault>
    ensures { GivesEvent result (switch_does_at words.entry) }
{
    let action = action_in(words.word()?)?;
    match action {
        Action::Assign => Ok(Event::SwitchDoes(SwitchAction::Assign(last_number(words)?))),
        Action::Clear => Ok(Event::SwitchDoes(SwitchAction::Clear(last_number(words)?))),
        Action::Dtap => dtap(alloc, words),
    }
}

/// Reads a mobile as the last word.
fn last_mobile(mut words: Words<'_>) -> Result<u8, BadEvent>
    ensures { Reads (λ mobile. mobile) result (last_at mobile_in words.entry) }
{
    let mobile = words.mobile()?;
    words.end()?;
    Ok(mobile)
}

/// Reads a mobile and a SAPI as the last words.
fn last_mobile_and_sapi(mut words: Words<'_>) -> Result<(u8, Sapi), BadEvent>
    ensures { Reads (λ pair. pair) result (mobile_and_sapi_in words.entry) }
{
    let mobile = words.mobile()?;
    let sapi = words.sapi()?;
    words.end()?;
    Ok((mobile, sapi))
}

/// Reads a station as the last word.
fn last_station(cells: u16, mut words: Words<'_>) -> Result<u16, BadEvent>
    ensures { Reads (λ station. station) result (last_at (station_in cells) words.entry) }
{
    let station = words.station(cells)?;
    words.end()?;
    Ok(station)
}

/// Reads a source as the last word.
fn last_source(cells: u16, mut words: Words<'_>) -> Result<u16, BadEvent>
    ensures { Reads (λ source. source) result (last_at (source_in cells) words.entry) }
{
    let source = words.source(cells)?;
    words.end()?;
    Ok(source)
}

/// Reads any number below 2 to the 32 as the last word.
fn last_number(mut words: Words<'_>) -> Result<u32, BadEvent>
    ensures { Reads (λ number. number) result (last_at any_number_in words.entry) }
{
    let number = words.any_number()?;
    words.end()?;
    Ok(number)
}

/// Reads the words after the first word of a line of this kind.
#[tactic(auto, unfolding(crate::specs::ScriptReading::event_at))]
fn arguments(alloc: Global, cells: u16, kind: Kind, words: Words<'_>) -> Result<Event, LineFault>
    ensures { GivesEvent result (event_at cells kind words.entry) }
{
    match kind {
        Kind::Upper => upper(alloc, words),
        Kind::Connect => connect(alloc, cells, words),
        Kind::AirUp => {
            let (mobile, sapi) = last_mobile_and_sapi(words)?;
            Ok(Event::AirUp { mobile, sapi })
        }
        Kind::AirAck => {
            let (mobile, sapi) = last_mobile_and_sapi(words)?;
            Ok(Event::AirAck { mobile, sapi })
        }
        Kind::BaseTakes => Ok(Event::BaseTakes(last_station(cells, words)?)),
        Kind::BasePush => Ok(Event::BasePush(last_source(cells, words)?)),
        Kind::BaseDown => Ok(Event::BaseDown(last_source(cells, words)?)),
        Kind::Tick => Ok(Event::Tick(last_number(words)?)),
        Kind::SwitchDoes => switch_does(alloc, words),
        Kind::Report => report(alloc, words),
        Kind::Handle => {
            words.end()?;
            Ok(Event::Handle)
        }
        Kind::SwitchTakes => {
            words.end()?;
            Ok(Event::SwitchTakes)
        }
        Kind::AirDown => Ok(Event::AirDown(last_mobile(words)?)),
        Kind::AirDownLost => Ok(Event::AirDownLost(last_mobile(words)?)),
        Kind::Move => Ok(Event::Move(last_mobile(words)?)),
        Kind::Touch => Ok(Event::Touch(last_mobile(words)?)),
        Kind::Arrive => Ok(Event::Arrive(last_mobile(words)?)),
        Kind::Return => Ok(Event::Return(last_mobile(words)?)),
    }
}

/// Reads all words of a line.
#[tactic(auto, unfolding(crate::specs::ScriptReading::line_at))]
fn line_of(alloc: Global, cells: u16, mut words: Words<'_>) -> Result<Event, LineFault>
    ensures { GivesEvent result (line_at cells words.entry) }
{
    let kind = kind_in(words.word()?)?;
    arguments(alloc, cells, kind, words)
}

/// Reads one line of a script of a world of `cells` cells, and answers the event whose text the
/// line is. `BadEvent` if the line isn't the text of an event. `Memory` if the line is the text of
/// an event, but memory ran out.
pub fn read_line(alloc: Global, cells: u16, line: &str) -> Result<Event, LineFault>
    ensures event { IfOk result (λ event. IsLine cells event line.now) }
    ensures only { (event : WorldEvent) → IsLine cells event line.now
        → (result ≡ Ok event) ⊎ (result ≡ Err LineFault.Memory) }
    ensures memory { result ≡ Err LineFault.Memory
        → (event : WorldEvent) × IsLine cells event line.now }
{
    read_octets(alloc, cells, line.as_bytes())
}

/// Does the same as `read_line` for the octets of a line. Octets that aren't UTF-8 are `BadEvent`.
pub(crate) fn read_octets(alloc: Global, cells: u16, line: &[u8]) -> Result<Event, LineFault>
    ensures event { IfOk result (λ event. IsLine cells event line.now) }
    ensures only { (event : WorldEvent) → IsLine cells event line.now
        → (result ≡ Ok event) ⊎ (result ≡ Err LineFault.Memory) }
    ensures memory { result ≡ Err LineFault.Memory
        → (event : WorldEvent) × IsLine cells event line.now }
{
    line_of(alloc, cells, Words::of(line))
}
