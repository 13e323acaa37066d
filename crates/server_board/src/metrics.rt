//! Figures in the text format of Prometheus.
use crate::VERSION;
use crate::commit::Commit;
use crate::figures::{StoreFigures, reply_figures};
use crate::request_times::put_request_times;
use gate_base::Tally;
use gate_limits::Counts;
use std::alloc::{AllocError, Global};

/// Figures under one name.
#[derive(Clone, Copy, PartialEq, Eq)]
pub(crate) struct Family {
    /// The name, after the program's.
    pub name: &'static str,
    /// What the figures are.
    pub help: &'static str,
    pub kind: Kind,
}

/// What a figure does.
#[derive(Clone, Copy, PartialEq, Eq)]
pub(crate) enum Kind {
    /// It rises and falls.
    Gauge,
    /// It only rises.
    Counter,
    /// They count times up to bounds, and only rise.
    Histogram,
}

/// A figure that is alone under its name.
#[derive(Clone, Copy, PartialEq, Eq)]
struct Figure {
    family: Family,
    value: u64,
}

/// Figures of all stores that have one name.
#[derive(Clone, Copy, PartialEq, Eq)]
enum OfStores {
    Room,
    Held,
    Failures,
}

impl Kind {
    fn word(self) -> &'static str {
        match self {
            Kind::Gauge => "gauge",
            Kind::Counter => "counter",
            Kind::Histogram => "histogram",
        }
    }
}

impl Family {
    /// Its one figure.
    fn shows(self, value: u64) -> Figure {
        Figure {
            family: self,
            value,
        }
    }
}

impl OfStores {
    /// Their name.
    fn family(self) -> Family {
        match self {
            OfStores::Room => gauge("store_room_bytes", "Bytes that a store would still take."),
            OfStores::Held => gauge("store_held_bytes", "Bytes that a store holds."),
            OfStores::Failures => counter("store_failures_total", "How often a store failed."),
        }
    }

    /// The figure of one store.
    fn of(self, store: &StoreFigures) -> u64 {
        match self {
            OfStores::Room => store.room,
            OfStores::Held => store.held,
            OfStores::Failures => store.failures,
        }
    }
}

/// The program's version and commit, and the figures of the loop, of requests, of replies and of each store.
pub fn metrics_text(
    alloc: Global,
    commit: Option<&Commit>,
    counts: &Counts,
    tally: &Tally,
    stores: &[StoreFigures],
) -> Result<String, AllocError> {
    let mut text = String::new(alloc);
    put_build(alloc, &mut text, commit)?;
    for figure in &figures_of(counts) {
        put_figure(alloc, &mut text, figure)?;
    }
    put_request_times(alloc, &mut text, &counts.latencies)?;
    put_replies(alloc, &mut text, tally)?;
    put_stores(alloc, &mut text, OfStores::Room, stores)?;
    put_stores(alloc, &mut text, OfStores::Held, stores)?;
    put_stores(alloc, &mut text, OfStores::Failures, stores)?;
    Ok(text)
}

/// Puts the program's version, and its commit where that is known: a figure that is always 1, with these at its name.
fn put_build(alloc: Global, text: &mut String, commit: Option<&Commit>) -> Result<(), AllocError> {
    let family = gauge(
        "build_info",
        "The version of the program, and its commit where that is known, beside the value 1.",
    );
    put_head(alloc, text, family)?;
    let line = match commit {
        Some(commit) => format!(in alloc;
            "wozhinnam_build_info{{version=\"{}\",commit=\"{}\"}} 1\n",
            VERSION,
            commit.as_str()
        )?,
        None => format!(in alloc; "wozhinnam_build_info{{version=\"{}\"}} 1\n", VERSION)?,
    };
    put_line(text, &line)
}

/// Puts a figure of the loop.
fn put_figure(alloc: Global, text: &mut String, figure: &Figure) -> Result<(), AllocError> {
    put_head(alloc, text, figure.family)?;
    let line = format!(in alloc; "wozhinnam_{} {}\n", figure.family.name, figure.value)?;
    put_line(text, &line)
}

/// Puts a line behind the text.
pub(crate) fn put_line(text: &mut String, line: &String) -> Result<(), AllocError> {
    text.push_str(line.as_str())
}

/// The figures of the loop.
fn figures_of(counts: &Counts) -> [Figure; 14] {
    [
        gauge("uptime_seconds", "Seconds since connections are served.").shows(counts.seconds),
        gauge("connections", "Connections that are open.").shows(counts.open),
        gauge(
            "connections_waiting",
            "Connections that wait with a long request until less is kept.",
        )
        .shows(counts.waiting),
        gauge(
            "kept_bytes",
            "Bytes of requests that aren't whole yet and of replies that wait.",
        )
        .shows(counts.kept),
        counter("connections_opened_total", "Connections that were opened.").shows(counts.opened),
        counter(
            "connections_over_total",
            "Connections that were closed once they had all their replies.",
        )
        .shows(counts.over),
        counter(
            "connections_failed_total",
            "Connections that were cut since their socket failed or memory was refused.",
        )
        .shows(counts.failed),
        counter(
            "connections_late_total",
            "Connections that were cut since their time was over.",
        )
        .shows(counts.late),
        counter(
            "connections_stopped_total",
            "Connections that were closed since the program was to stop.",
        )
        .shows(counts.stopped),
        counter(
            "connections_replaced_total",
            "Idle connections that were closed for newcomers.",
        )
        .shows(counts.replaced),
        counter(
            "sockets_refused_total",
            "Sockets that were closed at once: refused, or their address had its share.",
        )
        .shows(counts.refused),
        counter(
            "accept_paused_total",
            "How often no socket could be accepted, for want of handles or memory.",
        )
        .shows(counts.starved),
        counter(
            "received_bytes_total",
            "Bytes that were read of connections.",
        )
        .shows(counts.bytes_in),
        counter(
            "sent_bytes_total",
            "Bytes that were written to connections.",
        )
        .shows(counts.bytes_out),
    ]
}

fn gauge(name: &'static str, help: &'static str) -> Family {
    Family {
        name,
        help,
        kind: Kind::Gauge,
    }
}

fn counter(name: &'static str, help: &'static str) -> Family {
    Family {
        name,
        help,
        kind: Kind::Counter,
    }
}

/// Puts the lines that say what the figures are, and what they do.
pub(crate) fn put_head(alloc: Global, text: &mut String, family: Family) -> Result<(), AllocError> {
    let help = format!(in alloc; "# HELP wozhinnam_{} {}\n", family.name, family.help)?;
    put_line(text, &help)?;
    let kind = format!(in alloc; "# TYPE wozhinnam_{} {}\n", family.name, family.kind.word())?;
    put_line(text, &kind)
}

/// Puts the number of replies of each status, by its code.
fn put_replies(alloc: Global, text: &mut String, tally: &Tally) -> Result<(), AllocError> {
    let family = counter("replies_total", "Replies of each status.");
    put_head(alloc, text, family)?;
    for replies in &reply_figures(tally) {
        let line = format!(in alloc;
            "wozhinnam_replies_total{{status=\"{}\"}} {}\n",
            replies.name, replies.value
        )?;
        put_line(text, &line)?;
    }
    Ok(())
}

/// Puts one figure of each store, which has its number, from 0.
fn put_stores(
    alloc: Global,
    text: &mut String,
    what: OfStores,
    stores: &[StoreFigures],
) -> Result<(), AllocError> {
    let family = what.family();
    put_head(alloc, text, family)?;
    for (at, store) in stores.iter().enumerate() {
        let value = what.of(store);
        let line = format!(in alloc; "wozhinnam_{}{{store=\"{}\"}} {}\n", family.name, at, value)?;
        put_line(text, &line)?;
    }
    Ok(())
}
