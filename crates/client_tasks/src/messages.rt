//! Lines on standard error, in which no cap is.
ghost use Rattle.std.specs.Prelude.{◌≡◌, IsTrue, false, string_bytes};
ghost use Rattle.std.specs.List.{list_all};
ghost use Rattle.client_tasks.specs.Lines.{HasNoMark, is_plain_byte};

use crate::fault::TaskFault;
use client_tree::LocalFault;
use std::alloc::{AllocError, Global};
use std::io;
use std::rt::Clock;

/// With what each cap's text begins.
const MARK: &str = "URI:";

/// A line that can be told: no cap's text is in it, and no control character of ASCII.
#[derive(Drop)]
pub struct Line {
    text: String,
    ghost no_cap: { HasNoMark (string_bytes text) },
    ghost plain: { IsTrue (list_all is_plain_byte (string_bytes text)) },
}

impl Line {
    /// The line of a text. It ends where a cap's text would begin, and says so then.
    pub fn new(alloc: Global, text: &str) -> Result<Line, AllocError> {
        match text.split_once(MARK) {
            Some((before, _)) => {
                line_of(
                    alloc,
                    format!(in alloc; "{before}(what may be a cap isn't told)")?,
                )
            }
            None => line_of(alloc, String::from_str(alloc, text)?),
        }
    }
}

/// The line of a text that can be told, or else one that says that it can't.
fn line_of(alloc: Global, text: String) -> Result<Line, AllocError> {
    if !has_mark(text.as_str()) && is_plain(text.as_str()) {
        return Ok(Line { text });
    }
    untold(alloc)
}

/// A line in place of one that can't be told.
fn untold(alloc: Global) -> Result<Line, AllocError> {
    let text = String::from_str(alloc, "woz: a message that can't be told")?;
    Ok(Line { text })
}

/// Whether a cap's text may be in it.
fn has_mark(text: &str) -> bool
    ensures { result ≡ false → HasNoMark text.now }
{
    text.contains(MARK)
}

/// Whether no control character of ASCII is in it.
fn is_plain(text: &str) -> bool
    ensures { result ≡ list_all is_plain_byte text.now }
{
    text.as_bytes()
        .iter()
        .all(|byte| *byte >= 32 && *byte != 127)
}

/// Standard error, on which lines are told and nothing else is, and the time. Whatever has this alone can write no cap there.
pub trait Tell {
    /// Writes a line.
    fn tell(&self, line: &Line);

    /// Writes a line over the one that stands.
    fn tell_over(&self, line: &Line);

    /// The same, and ends it.
    fn tell_last(&self, line: &Line);

    /// The time since some start, in milliseconds; 0 where there is no clock.
    fn milliseconds(&self) -> u64;
}

impl<R: Eprint + Clock> Tell for R {
    fn tell(&self, line: &Line) {
        let text = line.text.as_str();
        let _ = eprintln!(self; "{text}");
    }

    fn tell_over(&self, line: &Line) {
        let text = line.text.as_str();
        let _ = eprint!(self; "\r{text:<60}");
    }

    fn tell_last(&self, line: &Line) {
        let text = line.text.as_str();
        let _ = eprintln!(self; "\r{text:<60}");
    }

    fn milliseconds(&self) -> u64 {
        match self.monotonic() {
            Ok(time) => u64::try_from(time.as_millis()).unwrap_or(u64::MAX),
            Err(_) => 0,
        }
    }
}

/// Tells why a task isn't done.
pub fn tell_fault<R: Tell + AllocGlobal>(rt: &R, fault: &TaskFault) {
    let alloc = rt.alloc();
    let _ = tell_text(rt, format!(in alloc; "woz: {fault}"));
}

/// Tells what failed at a place, which stands in quotes, its control characters escaped.
pub fn told<R: Tell + AllocGlobal, T: Drop>(
    rt: &R,
    place: &str,
    outcome: io::Result<T>,
) -> Result<T, LocalFault> {
    let alloc = rt.alloc();
    match outcome {
        Ok(value) => Ok(value),
        Err(error) => {
            let _ = tell_text(rt, format!(in alloc; "woz: {place:?}: {error}"));
            Err(LocalFault)
        }
    }
}

/// Tells that something of a folder isn't stored.
pub fn tell_passed_over<R: Tell + AllocGlobal>(rt: &R, place: &str, name: &str) {
    let alloc = rt.alloc();
    let text = format!(in alloc;
        "woz: {place:?}: {name:?} is passed over: neither a file nor a folder"
    );
    let _ = tell_text(rt, text);
}

/// Tells a text of several lines.
pub fn tell_lines<R: Tell + AllocGlobal>(rt: &R, text: &str) {
    for line in text.lines() {
        if let Ok(line) = Line::new(rt.alloc(), line) {
            rt.tell(&line);
        }
    }
}

/// Tells the line of a text, if memory lasts.
fn tell_text<R: Tell + AllocGlobal>(
    rt: &R,
    text: Result<String, AllocError>,
) -> Result<(), AllocError> {
    let text = text?;
    rt.tell(&Line::new(rt.alloc(), text.as_str())?);
    Ok(())
}
