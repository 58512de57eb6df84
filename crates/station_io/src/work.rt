// SPDX-License-Identifier: MIT OR Apache-2.0
//! The work of each thread of the relay.

use controller::Controller;
use controller_worker::{Clock, Marks, call_worker};
use link_workers::{
    Gate, HasRead, HasWritten, IoFault, LinkReader, serve_link_reader, serve_writer,
};
use ruled_relay::{Desk, Putter, SourcePass, Taker};
use std::alloc::Global;
use std::io::Write;
use std::sync::Wait;
use thread_crew::Worker;

/// The work of a link's reader.
#[derive(Drop)]
pub(crate) struct Reading<I, G> {
    pub alloc: Global,
    pub reader: I,
    pub gate: G,
    pub pass: SourcePass,
    /// How often in a row the gate may refuse an item.
    pub limit: u32,
}

impl<I: LinkReader + Drop, G: Gate + Drop> Worker for Reading<I, G> {
    type Done = HasRead<I, G>;

    ghost use Rattle.link_workers.specs.Reading.{Serves};

    ghost can_work = { λ w. Unit {0} };

    ghost does = { λ w d. Serves (I.remaining w.reader) (I.remaining d.reader) w.limit
        (G.refused w.gate) (G.refused d.gate) w.pass d.pass d.fault };

    fn work<R: Wait>(self, rt: &R) -> HasRead<I, G> {
        serve_link_reader(
            rt,
            self.alloc,
            self.reader,
            self.gate,
            self.pass,
            self.limit,
        )
    }
}

/// The work of a link's writer.
#[derive(Drop)]
pub(crate) struct Writing<O> {
    pub alloc: Global,
    pub writer: O,
    pub taker: Taker,
}

impl<O: Write + Drop> Worker for Writing<O> {
    type Done = HasWritten<O>;

    ghost use Rattle.link_workers.specs.Writing.{Delivers};

    ghost can_work = { λ w. Unit {0} };

    ghost does = { λ w d. Delivers (O.contents w.writer) (O.contents d.writer)
        w.taker d.taker d.fault };

    fn work<R: Wait>(self, rt: &R) -> HasWritten<O> {
        serve_writer(rt, self.alloc, self.writer, self.taker)
    }
}

/// The work of the call worker.
#[derive(Drop)]
pub(crate) struct Calling<K> {
    pub alloc: Global,
    pub controller: Controller,
    pub desk: Desk,
    pub putters: Vec<Putter>,
    pub marks: Marks,
    pub clock: K,
}

/// The result of the call worker, and its fault if there is one.
#[derive(Drop)]
pub(crate) struct HasCalled {
    pub desk: Desk,
    pub putters: Vec<Putter>,
    pub fault: Option<IoFault>,
}

impl<K: Clock + Drop> Worker for Calling<K> {
    type Done = HasCalled;

    ghost use Rattle.station_io.specs.Calls.{Calls};
    ghost use Rattle.station_io.specs.Work.{MayCall};

    ghost can_work = { λ w. MayCall w };

    ghost does = { λ w d.
        Calls w.controller w.desk w.putters.items d.fault d.desk d.putters.items };

    fn work<R: Wait>(self, rt: &R) -> HasCalled {
        let relayed = call_worker(
            rt,
            self.alloc,
            self.controller,
            self.desk,
            self.putters,
            self.marks,
            self.clock,
        );
        HasCalled {
            desk: relayed.desk,
            putters: relayed.putters,
            fault: relayed.fault,
        }
    }
}
