// SPDX-License-Identifier: MIT OR Apache-2.0
ghost use Rattle.std.specs.Prelude.{◌≡◌, ◌+◌, [], length, vec_len, IfOk, OnOk};
ghost use Rattle.link_sockets.specs.Naming.{AreAllNamed, place_of};
ghost use Rattle.link_sockets.specs.declared.name.LinkName.TheVariants.{Switch};

use crate::arrivals::{Port, await_stations};
use crate::endings::Endings;
use crate::fault::RunFault;
use crate::gate::OpenGate;
use crate::line::log_line;
use crate::name::LinkName;
use crate::other_links::OtherLinks;
use crate::socket::{ReadingEnd, WritingEnd, ends_of};
use log::{Level, Log};
use settings::{Cell, Settings};
use station_io::Link;
use std::alloc::Global;
use std::io;
use std::net::{Net, SocketAddr, TcpListener, TcpStream};
use std::time::{Clock, Duration};

/// A link over TCP whose gate is never shut.
pub type SocketLink<R> = Link<ReadingEnd<R>, WritingEnd<R>, OpenGate>;

/// The links of a relay that begins, and the listeners of its cells. Further peers are refused at
/// the listeners. `endings` ends the links that are due to end.
#[derive(Drop)]
pub struct OpenedLinks<R> {
    pub links: Vec<SocketLink<R>>,
    pub listeners: Vec<TcpListener>,
    pub(crate) endings: Endings,
    pub(crate) others: OtherLinks,
}

/// Opens the links of these settings: first the switch's link, then the link of each cell's
/// station, in order. Listens for all stations before connecting to the switch, so that stations
/// may connect in any order.
///
/// `Device`: an address can't be listened at, the switch can't be connected to, the switch's link
/// ended before the last station connected, or a socket can't be used. `Memory`: an allocation
/// failed.
pub fn open_links<R>(rt: &R, alloc: Global, settings: &Settings) -> Result<OpenedLinks<R>, RunFault>
where
    R: Net<Listener = TcpListener, Stream = TcpStream> + Log + Clock + Copy + Drop,
    ensures count { IfOk result (λ opened. vec_len opened.links ≡ length settings.now.cells + 1) }
    ensures names { IfOk result (λ opened. AreAllNamed opened.links.items) }
{
    let mut ports = listen(rt, alloc, settings.cells())?;
    let switch = connect(rt, settings.switch_address())?;
    await_stations(rt, alloc, &mut ports, &switch)?;
    log_line(rt, Level::Info, "relaying");
    let patience = Duration::from_millis(u64::from(settings.drain_ms()));
    links_of(rt, alloc, switch, ports, patience)
}

/// Makes the links from the switch's socket and the ports of the cells, in order. `Device`: a cell
/// has no station, or a socket can't be used.
fn links_of<R: Log + Copy + Drop>(
    rt: &R,
    alloc: Global,
    switch: TcpStream,
    ports: Vec<Port>,
    patience: Duration,
) -> Result<OpenedLinks<R>, RunFault>
    ensures count { IfOk result (λ opened. vec_len opened.links ≡ vec_len ports + 1) }
    ensures names { IfOk result (λ opened. AreAllNamed opened.links.items) }
{
    let others = OtherLinks::new(alloc, ports.len() + 1)?;
    let endings = Endings::new(alloc, &switch, others.try_clone()?, patience)?;
    let mut opened = OpenedLinks {
        links: Vec::new(alloc),
        listeners: Vec::new(alloc),
        endings,
        others,
    };
    opened.add_switch(rt, alloc, switch)?;
    opened.add_stations(rt, alloc, ports)?;
    Ok(opened)
}

impl<R: Log + Copy + Drop> OpenedLinks<R> {
    /// Adds the switch's link as the first one.
    fn add_switch(&mut self, rt: &R, alloc: Global, switch: TcpStream) -> Result<(), RunFault>
        requires { self.old.links.items ≡ [] }
        ensures count { OnOk result (vec_len self.new.links ≡ 1) }
        ensures names { OnOk result (AreAllNamed self.new.links.items) }
    {
        let known = self.others.try_clone()?;
        let link = link_of(*rt, alloc, LinkName::Switch, switch, known)?;
        self.links.push(link)?;
        Ok(())
    }

    /// Adds the link of each port, in order.
    fn add_stations(&mut self, rt: &R, alloc: Global, ports: Vec<Port>) -> Result<(), RunFault>
        requires { AreAllNamed self.old.links.items }
        ensures count { OnOk result
            (vec_len self.new.links ≡ vec_len self.old.links + vec_len ports) }
        ensures names { OnOk result (AreAllNamed self.new.links.items) }
    {
        for port in ports {
            self.add_station(rt, alloc, port)?;
        }
        Ok(())
    }

    /// Adds the link of the station that arrived at this port. `Device`: no station arrived, or the
    /// station's socket can't be used.
    fn add_station(&mut self, rt: &R, alloc: Global, port: Port) -> Result<(), RunFault>
        requires { AreAllNamed self.old.links.items }
        ensures count { OnOk result (vec_len self.new.links ≡ vec_len self.old.links + 1) }
        ensures names { OnOk result (AreAllNamed self.new.links.items) }
    {
        let known = self.others.try_clone()?;
        let number = self.links.len();
        let (link, listener) = station_of(rt, alloc, number, port, known, &mut self.endings)?;
        self.links.push(link)?;
        self.listeners.push(listener)?;
        Ok(())
    }
}

/// Makes the link of the station that arrived at this port, and returns the link with the cell's
/// listener. `number` is the cell's number. Adds the station's socket to `endings`.
fn station_of<R: Log + Copy + Drop>(
    rt: &R,
    alloc: Global,
    number: usize,
    port: Port,
    others: OtherLinks,
    endings: &mut Endings,
) -> Result<(SocketLink<R>, TcpListener), RunFault>
    ensures { IfOk result (λ station.
        (place_of station.0.reader.name ≡ number) × (place_of station.0.writer.name ≡ number)) }
{
    let (listener, arrived) = port.into_parts(rt, number);
    let Some(arrived) = arrived else {
        return Err(RunFault::Device);
    };
    let name = LinkName::of_link(number, arrived.peer);
    endings.add(&arrived.stream)?;
    let link = link_of(*rt, alloc, name, arrived.stream, others)?;
    Ok((link, listener))
}

/// Listens for the station of each cell, in order.
fn listen<R>(rt: &R, alloc: Global, cells: &[Cell]) -> Result<Vec<Port>, RunFault>
where
    R: Net<Listener = TcpListener, Stream = TcpStream> + Log,
    ensures { IfOk result (λ ports. vec_len ports ≡ length cells.now) }
{
    let mut ports = Vec::new(alloc);
    for cell in cells {
        let number = ports.len() + 1;
        let listener = listener_at(rt, number, cell.listen())?;
        ports.push(Port::new(listener))?;
    }
    Ok(ports)
}

/// Listens for the station of the cell with this number. Asking the listener for the next peer
/// doesn't block.
fn listener_at<R>(rt: &R, number: usize, address: &str) -> Result<TcpListener, RunFault>
where
    R: Net<Listener = TcpListener, Stream = TcpStream> + Log,
{
    match bound(rt, address) {
        Ok((listener, address)) => {
            log_line(
                rt,
                Level::Info,
                format_args!("cell {number}: waiting at {address}"),
            );
            Ok(listener)
        }
        Err(error) => {
            log_line(
                rt,
                Level::Error,
                format_args!("cell {number}: cannot listen at {address}: {error}"),
            );
            Err(RunFault::from(error))
        }
    }
}

/// A nonblocking listener at this address, and the listener's actual address with the opened port.
fn bound<R>(rt: &R, address: &str) -> io::Result<(TcpListener, SocketAddr)>
where
    R: Net<Listener = TcpListener, Stream = TcpStream>,
{
    let listener = TcpListener::bind(rt, address)?;
    listener.set_nonblocking(true)?;
    let at = listener.local_addr()?;
    Ok((listener, at))
}

/// Connects to the switch.
fn connect<R>(rt: &R, address: &str) -> Result<TcpStream, RunFault>
where
    R: Net<Listener = TcpListener, Stream = TcpStream> + Log,
{
    match TcpStream::connect(rt, address) {
        Ok(stream) => {
            log_line(
                rt,
                Level::Info,
                format_args!("switch: connected to {address}"),
            );
            Ok(stream)
        }
        Err(error) => {
            log_line(
                rt,
                Level::Error,
                format_args!("switch: cannot connect to {address}: {error}"),
            );
            Err(RunFault::from(error))
        }
    }
}

/// Makes the link over this socket. If the socket can't be used, logs why.
fn link_of<R: Log + Copy + Drop>(
    rt: R,
    alloc: Global,
    name: LinkName,
    stream: TcpStream,
    others: OtherLinks,
) -> Result<SocketLink<R>, RunFault>
    ensures { IfOk result (λ link. (link.reader.name ≡ name) × (link.writer.name ≡ name)) }
{
    let (reader, writer) = match ends_of(rt, alloc, name, stream, others) {
        Ok(ends) => ends,
        Err(fault) => {
            log_line(
                &rt,
                Level::Error,
                format_args!("{name}: cannot use its socket: {fault}"),
            );
            return Err(fault);
        }
    };
    let gate = OpenGate;
    Ok(Link {
        reader,
        writer,
        gate,
    })
}
