//! What stores are opened with: all that the program has, and the log that is asked for.
use log::kv::Source;
use log::span::Spans;
use log::{Log, Metadata as About, Record};
use std::alloc::Allocator;
use std::fmt::Display;
use std::fs::{Metadata, OpenOptions, Permissions};
use std::io;
use std::net::{Net, SocketAddr};
use std::path::PathBuf;
use std::random::RandomSource;
use std::rt::Files;
use std::time::{Clock, Duration};

/// The runtime `R` with the log `L`. The kit's own pair of the two looks up no host and has no time limit for a connection,
/// and stores on Redis servers want both.
#[derive(Clone, Drop)]
pub struct StoreRuntime<R, L> {
    rt: R,
    records: L,
}

impl<R, L> StoreRuntime<R, L> {
    /// The runtime `rt` with the log `records`.
    pub fn new(rt: R, records: L) -> StoreRuntime<R, L> {
        StoreRuntime { rt, records }
    }
}

impl<R, L: Log> Log for StoreRuntime<R, L> {
    ghost enables = { λ s. L.enables s.records };

    ghost target_of = { λ s. L.target_of s.records };

    fn enabled(&self, metadata: &About<'_>) -> bool {
        self.records.enabled(metadata)
    }

    fn log<D: Display, K: Source, S: Spans>(&self, record: &Record<'_, D, K, S>) {
        self.records.log(record);
    }

    fn flush(&self) {
        self.records.flush();
    }

    fn target(&self) -> &str {
        self.records.target()
    }
}

impl<R: Alloc, L> Alloc for StoreRuntime<R, L> {
    type A = R::A;

    fn alloc(&self) -> R::A {
        self.rt.alloc()
    }
}

impl<R: Eprint, L> Eprint for StoreRuntime<R, L> {
    fn eprint<D: Display + Drop>(&self, value: D) -> io::Result<()> {
        self.rt.eprint(value)
    }

    fn eprintln<D: Display + Drop>(&self, value: D) -> io::Result<()> {
        self.rt.eprintln(value)
    }
}

impl<R: Clock, L> Clock for StoreRuntime<R, L> {
    fn monotonic(&self) -> io::Result<Duration> {
        self.rt.monotonic()
    }

    fn since_1970(&self) -> io::Result<Duration> {
        self.rt.since_1970()
    }

    fn sleep(&self, duration: Duration) {
        self.rt.sleep(duration)
    }
}

impl<R: RandomSource, L> RandomSource for StoreRuntime<R, L> {
    fn fill_bytes(&self, buf: &mut [u8]) -> io::Result<()> {
        self.rt.fill_bytes(buf)
    }
}

impl<R: Net, L> Net for StoreRuntime<R, L> {
    type Stream = R::Stream;

    type Listener = R::Listener;

    fn bind(&self, address: SocketAddr) -> io::Result<R::Listener> {
        self.rt.bind(address)
    }

    fn connect(&self, address: SocketAddr) -> io::Result<R::Stream> {
        self.rt.connect(address)
    }

    fn connect_timeout(&self, address: SocketAddr, time: Duration) -> io::Result<R::Stream> {
        self.rt.connect_timeout(address, time)
    }

    fn lookup_host(&self, host: &str, port: u16, found: &mut [SocketAddr]) -> io::Result<usize> {
        self.rt.lookup_host(host, port, found)
    }
}

impl<R: Files, L> Files for StoreRuntime<R, L> {
    type File = R::File;

    type Dir = R::Dir;

    fn open_file(&self, how: &OpenOptions, path: &str) -> io::Result<R::File> {
        self.rt.open_file(how, path)
    }

    fn open_dir(&self, path: &str) -> io::Result<R::Dir> {
        self.rt.open_dir(path)
    }

    fn metadata(&self, path: &str) -> io::Result<Metadata> {
        self.rt.metadata(path)
    }

    fn symlink_metadata(&self, path: &str) -> io::Result<Metadata> {
        self.rt.symlink_metadata(path)
    }

    fn copy(&self, from: &str, to: &str) -> io::Result<u64> {
        self.rt.copy(from, to)
    }

    fn rename(&self, from: &str, to: &str) -> io::Result<()> {
        self.rt.rename(from, to)
    }

    fn remove_file(&self, path: &str) -> io::Result<()> {
        self.rt.remove_file(path)
    }

    fn create_dir(&self, path: &str) -> io::Result<()> {
        self.rt.create_dir(path)
    }

    fn remove_dir(&self, path: &str) -> io::Result<()> {
        self.rt.remove_dir(path)
    }

    fn remove_dir_all<A: Allocator>(&self, alloc: A, path: &str) -> io::Result<()> {
        self.rt.remove_dir_all(alloc, path)
    }

    fn canonicalize<A: Allocator>(&self, alloc: A, path: &str) -> io::Result<PathBuf<A>> {
        self.rt.canonicalize(alloc, path)
    }

    fn read_link<A: Allocator>(&self, alloc: A, path: &str) -> io::Result<PathBuf<A>> {
        self.rt.read_link(alloc, path)
    }

    fn hard_link(&self, original: &str, link: &str) -> io::Result<()> {
        self.rt.hard_link(original, link)
    }

    fn set_permissions(&self, path: &str, permissions: Permissions) -> io::Result<()> {
        self.rt.set_permissions(path, permissions)
    }
}
