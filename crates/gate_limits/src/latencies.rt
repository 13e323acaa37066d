//! How long requests took.
ghost use Rattle.std.specs.Prelude.{◌≡◌, ◌-◌, ◌^◌, min, map, None};
ghost use Rattle.std.specs.Duration.{as_nanos};
ghost use Rattle.gate_limits.specs.Latencies.{bucket_after, empty_bucket, empty_histogram, empty_latencies, histogram_after, latencies_after, named_kind};

use std::time::Duration;

/// What a request is, by the method that its first bytes name (RFC 9110, section 9).
#[derive(Clone, Copy, PartialEq, Eq)]
pub enum RequestKind {
    Get,
    Head,
    Put,
    Post,
    /// Another method, or bytes that name none.
    Other,
}

impl RequestKind {
    /// What a request with these first bytes is.
    pub fn of(bytes: &[u8]) -> RequestKind
        ensures { result ≡ named_kind bytes.now }
    {
        if bytes.starts_with(b"GET ") {
            RequestKind::Get
        } else if bytes.starts_with(b"HEAD ") {
            RequestKind::Head
        } else if bytes.starts_with(b"PUT ") {
            RequestKind::Put
        } else if bytes.starts_with(b"POST ") {
            RequestKind::Post
        } else {
            RequestKind::Other
        }
    }
}

/// How many requests took a time up to a bound.
#[derive(Clone, Copy, PartialEq, Eq)]
pub struct Bucket {
    /// The bound, in nanoseconds.
    pub bound: u64,
    /// How many took as long, or less.
    pub count: u64,
}

impl Bucket {
    /// No request took any time yet.
    fn new(bound: u64) -> Bucket
        ensures { result ≡ empty_bucket bound }
    {
        Bucket { bound, count: 0 }
    }

    /// The bucket once one more request took so many nanoseconds.
    fn after(self, nanos: u64) -> Bucket
        ensures { result ≡ bucket_after nanos self }
    {
        if nanos <= self.bound {
            Bucket {
                bound: self.bound,
                count: self.count.saturating_add(1),
            }
        } else {
            self
        }
    }
}

/// How long requests took. A number that reached its largest value stays there.
#[derive(Clone, Copy, PartialEq, Eq)]
pub struct Histogram {
    /// By their bounds, which rise from 1 millisecond to 10 seconds. A request counts in each whose bound is no less than
    /// its time.
    pub buckets: [Bucket; 9],
    /// How many requests there were.
    pub count: u64,
    /// How many nanoseconds they took in all.
    pub nanos: u64,
}

impl Histogram {
    /// There was no request yet.
    pub fn new() -> Histogram
        ensures { result ≡ empty_histogram }
    {
        Histogram {
            buckets: [
                Bucket::new(1_000_000),
                Bucket::new(3_000_000),
                Bucket::new(10_000_000),
                Bucket::new(30_000_000),
                Bucket::new(100_000_000),
                Bucket::new(300_000_000),
                Bucket::new(1_000_000_000),
                Bucket::new(3_000_000_000),
                Bucket::new(10_000_000_000),
            ],
            count: 0,
            nanos: 0,
        }
    }

    /// A request took so many nanoseconds.
    pub fn observes(&mut self, nanos: u64)
        ensures { self.new ≡ histogram_after nanos self.old }
    {
        count_in(&mut self.buckets, nanos);
        self.count = self.count.saturating_add(1);
        self.nanos = self.nanos.saturating_add(nanos);
    }
}

/// Counts a request that took so many nanoseconds in each bucket that it belongs to.
fn count_in(buckets: &mut [Bucket], nanos: u64)
    ensures { buckets.new ≡ map (bucket_after nanos) buckets.old }
{
    'buckets: for bucket in buckets.iter_mut() {
        *bucket = bucket.after(nanos);
    }
}

/// How long requests took, by what they were.
#[derive(Clone, Copy, PartialEq, Eq)]
pub struct Latencies {
    pub get: Histogram,
    pub head: Histogram,
    pub put: Histogram,
    pub post: Histogram,
    pub other: Histogram,
}

impl Latencies {
    /// There was no request yet.
    pub fn new() -> Latencies
        ensures { result ≡ empty_latencies }
    {
        Latencies {
            get: Histogram::new(),
            head: Histogram::new(),
            put: Histogram::new(),
            post: Histogram::new(),
            other: Histogram::new(),
        }
    }

    /// A request took so long, up to 2^64 - 1 nanoseconds.
    pub fn observes(&mut self, kind: RequestKind, time: Duration)
        ensures { self.new ≡ latencies_after kind (min (as_nanos time) (2 ^ 64 - 1)) self.old }
    {
        let nanos = nanos_of(time);
        match kind {
            RequestKind::Get => self.get.observes(nanos),
            RequestKind::Head => self.head.observes(nanos),
            RequestKind::Put => self.put.observes(nanos),
            RequestKind::Post => self.post.observes(nanos),
            RequestKind::Other => self.other.observes(nanos),
        }
    }
}

/// A time in nanoseconds, up to 2^64 - 1.
fn nanos_of(time: Duration) -> u64
    ensures { result ≡ min (as_nanos time) (2 ^ 64 - 1) }
{
    u64::try_from(time.as_nanos()).unwrap_or(u64::MAX)
}
