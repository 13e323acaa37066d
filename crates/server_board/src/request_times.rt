//! How long requests took, in the text format of Prometheus: a histogram of each kind of request.
use crate::metrics::{Family, Kind, put_head, put_line};
use gate_limits::{Histogram, Latencies};
use std::alloc::{AllocError, Global};

/// How many nanoseconds a second has.
const SECOND: u64 = 1_000_000_000;

/// Puts how long requests took, by their kind.
pub fn put_request_times(
    alloc: Global,
    text: &mut String,
    latencies: &Latencies,
) -> Result<(), AllocError> {
    let family = Family {
        name: "request_seconds",
        help: "Seconds from the first byte of a request until a reply to it was made.",
        kind: Kind::Histogram,
    };
    put_head(alloc, text, family)?;
    put_histogram(alloc, text, "get", &latencies.get)?;
    put_histogram(alloc, text, "head", &latencies.head)?;
    put_histogram(alloc, text, "put", &latencies.put)?;
    put_histogram(alloc, text, "post", &latencies.post)?;
    put_histogram(alloc, text, "other", &latencies.other)
}

/// Puts how long requests of one kind took: a line for each bound, which has how many took no longer, and then all of
/// them, their times and their number.
fn put_histogram(
    alloc: Global,
    text: &mut String,
    kind: &str,
    histogram: &Histogram,
) -> Result<(), AllocError> {
    for bucket in &histogram.buckets {
        let bound = seconds_text(alloc, bucket.bound)?;
        put_bucket(alloc, text, kind, bound.as_str(), bucket.count)?;
    }
    put_bucket(alloc, text, kind, "+Inf", histogram.count)?;
    let seconds = seconds_text(alloc, histogram.nanos)?;
    let sum = format!(in alloc; "wozhinnam_request_seconds_sum{{kind=\"{kind}\"}} {seconds}\n")?;
    put_line(text, &sum)?;
    let count = format!(in alloc;
        "wozhinnam_request_seconds_count{{kind=\"{kind}\"}} {}\n",
        histogram.count
    )?;
    put_line(text, &count)
}

/// Puts how many requests of a kind took no longer than a bound.
fn put_bucket(
    alloc: Global,
    text: &mut String,
    kind: &str,
    bound: &str,
    count: u64,
) -> Result<(), AllocError> {
    let line = format!(in alloc;
        "wozhinnam_request_seconds_bucket{{kind=\"{kind}\",le=\"{bound}\"}} {count}\n"
    )?;
    put_line(text, &line)
}

/// A time in seconds, in decimal, without zeros at its end.
fn seconds_text(alloc: Global, nanos: u64) -> Result<String, AllocError> {
    let seconds = nanos / SECOND;
    let part = nanos % SECOND;
    let text = format!(in alloc; "{seconds}.{part:09}")?;
    let short = text.as_str().trim_end_matches('0').trim_end_matches('.');
    String::from_str(alloc, short)
}
