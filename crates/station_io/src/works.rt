// SPDX-License-Identifier: MIT OR Apache-2.0
//! Makes the works of the reader and writer threads from the links.
ghost use Rattle.std.specs.Prelude.{◌≡◌, IfOk, vec_len};
ghost use Rattle.station_io.specs.Work.{readings as readings_of, writings as writings_of};

use crate::link::Link;
use crate::work::{Reading, Writing};
use octets::Memory;
use ruled_relay::{SourcePass, Taker};
use std::alloc::Global;

/// The works of the reader and the writer of each link. Each reader gets the pass by which it puts
/// into the inbox; each writer gets the taker by which it takes from the outbox. Fails only if
/// memory runs out. Assumes: there are as many passes and as many takers as links.
pub(crate) fn workers<I: Drop, O: Drop, G: Drop>(
    alloc: Global,
    links: Vec<Link<I, O, G>>,
    passes: Vec<SourcePass>,
    takers: Vec<Taker>,
    limit: u32,
) -> Result<(Vec<Reading<I, G>>, Vec<Writing<O>>), Memory>
    requires { (vec_len passes ≡ vec_len links) × (vec_len takers ≡ vec_len links) }
    ensures readings { IfOk result
        (λ r. r.0.items ≡ readings_of alloc limit links.items passes.items) }
    ensures writings { IfOk result (λ r. r.1.items ≡ writings_of alloc links.items takers.items) }
{
    let mut readings = Vec::with_capacity(alloc, links.len())?;
    let mut writings = Vec::with_capacity(alloc, links.len())?;
    let mut passes = passes.into_iter();
    let mut takers = takers.into_iter();
    for link in links {
        let Some(pass) = passes.next() else {
            unreachable!()
        };
        let Some(taker) = takers.next() else {
            unreachable!()
        };
        let Link {
            reader,
            writer,
            gate,
        } = link;
        readings.push_reserved(Reading {
            alloc,
            reader,
            gate,
            pass,
            limit,
        });
        writings.push_reserved(Writing {
            alloc,
            writer,
            taker,
        });
    }
    Ok((readings, writings))
}
