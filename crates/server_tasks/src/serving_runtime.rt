//! What the loop of connections runs with: all that the program has, and a log that waits for no reader.
use libc::net::{POLLOUT, poll};
use libc::types::pollfd;
use log::kv::Source;
use log::span::Spans;
use log::{Log, Metadata, Record, warn};
use std::cell::Cell;
use std::fmt::Display;
use std::io;
use std::net::{Net, SocketAddr};
use std::time::{Clock, CpuClock, Duration};

/// The handle of standard error.
const STANDARD_ERROR: i32 = 2;

/// The runtime `R` with the log `L`, whose records are written where standard error takes them at once. Else they are
/// left out and counted: a pipe that nobody reads, or a terminal that was stopped, holds up no connection. The next record
/// that is written has the count before it. A pipe that takes any bytes takes 4,096 at once, so a record is to be shorter.
#[derive(Drop)]
pub struct ServingRuntime<'a, R, L> {
    rt: &'a R,
    records: &'a L,
    left_out: Cell<u64>,
}

impl<'a, R, L> ServingRuntime<'a, R, L> {
    /// The runtime `rt` with the log `records`, of which no record was left out yet.
    pub fn new(rt: &'a R, records: &'a L) -> ServingRuntime<'a, R, L> {
        ServingRuntime {
            rt,
            records,
            left_out: Cell::new(0),
        }
    }
}

/// Whether standard error takes bytes at once. A file does; a handle that is closed fails at once.
fn takes_bytes() -> bool {
    let mut asked = [pollfd {
        fd: STANDARD_ERROR,
        events: POLLOUT,
        revents: 0,
    }];
    poll(&mut asked, 0) != 0
}

impl<R, L: Log> Log for ServingRuntime<'_, R, L> {
    ghost enables = { λ s. L.enables s.records.now };

    ghost target_of = { λ s. L.target_of s.records.now };

    fn enabled(&self, metadata: &Metadata<'_>) -> bool {
        self.records.enabled(metadata)
    }

    fn log<D: Display, K: Source, S: Spans>(&self, record: &Record<'_, D, K, S>) {
        let left_out = self.left_out.get();
        if !takes_bytes() {
            self.left_out.set(left_out.saturating_add(1));
            return;
        }
        if left_out > 0 {
            self.left_out.set(0);
            warn!(self.records; "{left_out} lines were left out that nobody read");
            if !takes_bytes() {
                self.left_out.set(1);
                return;
            }
        }
        self.records.log(record);
    }

    fn flush(&self) {
        self.records.flush();
    }

    fn target(&self) -> &str {
        self.records.target()
    }
}

impl<R: Alloc, L> Alloc for ServingRuntime<'_, R, L> {
    type A = R::A;

    fn alloc(&self) -> R::A {
        self.rt.alloc()
    }
}

impl<R: Clock, L> Clock for ServingRuntime<'_, R, L> {
    fn monotonic(&self) -> io::Result<Duration> {
        self.rt.monotonic()
    }

    fn since_1970(&self) -> io::Result<Duration> {
        self.rt.since_1970()
    }

    fn sleep(&self, duration: Duration) {
        self.rt.sleep(duration)
    }
}

impl<R: CpuClock, L> CpuClock for ServingRuntime<'_, R, L> {
    fn thread_cpu_time(&self) -> io::Result<Duration> {
        self.rt.thread_cpu_time()
    }

    fn process_cpu_time(&self) -> io::Result<Duration> {
        self.rt.process_cpu_time()
    }
}

/// Names are looked up, and stores connected, before the loop runs.
impl<R: Net, L> Net for ServingRuntime<'_, R, L> {
    type Stream = R::Stream;

    type Listener = R::Listener;

    fn bind(&self, address: SocketAddr) -> io::Result<R::Listener> {
        self.rt.bind(address)
    }

    fn connect(&self, address: SocketAddr) -> io::Result<R::Stream> {
        self.rt.connect(address)
    }
}
