// SPDX-License-Identifier: MIT OR Apache-2.0
use log::kv::Source;
use log::span::Spans;
use log::{Log, Metadata, Record};
use std::fmt::Display;
use std::io;
use std::net::{Net, SocketAddr};
use std::sync::Wait;
use std::thread::Threads;
use std::time::{Clock, Duration};

/// The runtime of the relay: the program's runtime, and the log over that runtime. The log's own
/// handle isn't enough: it passes on everything that the relay needs except the lookup of host
/// names.
#[derive(Clone, Copy, Drop)]
pub(crate) struct RelayRuntime<R, L> {
    rt: R,
    logged: L,
}

impl<R, L> RelayRuntime<R, L> {
    /// Joins the runtime `rt` and the log `logged` over that runtime.
    pub(crate) fn new(rt: R, logged: L) -> RelayRuntime<R, L> {
        RelayRuntime { rt, logged }
    }
}

impl<R: Net, L> Net for RelayRuntime<R, L> {
    type Stream = R::Stream;

    type Listener = R::Listener;

    fn bind(&self, address: SocketAddr) -> io::Result<R::Listener> {
        self.rt.bind(address)
    }

    fn connect(&self, address: SocketAddr) -> io::Result<R::Stream> {
        self.rt.connect(address)
    }

    fn lookup_host(&self, host: &str, port: u16, found: &mut [SocketAddr]) -> io::Result<usize> {
        self.rt.lookup_host(host, port, found)
    }
}

impl<R: Clock, L> Clock for RelayRuntime<R, L> {
    fn monotonic(&self) -> io::Result<Duration> {
        self.rt.monotonic()
    }

    fn since_1970(&self) -> io::Result<Duration> {
        self.rt.since_1970()
    }

    fn sleep(&self, duration: Duration) {
        self.rt.sleep(duration)
    }
}

impl<R: Threads, L> Threads for RelayRuntime<R, L> {}

impl<R: Wait, L> Wait for RelayRuntime<R, L> {}

impl<R, L: Log> Log for RelayRuntime<R, L> {
    fn enabled(&self, metadata: &Metadata<'_>) -> bool {
        self.logged.enabled(metadata)
    }

    fn log<D: Display, K: Source, S: Spans>(&self, record: &Record<'_, D, K, S>) {
        self.logged.log(record);
    }

    fn flush(&self) {
        self.logged.flush();
    }

    fn target(&self) -> &str {
        self.logged.target()
    }
}
