//! How the log is written: a line an event, on standard error.
ghost use Rattle.std.specs.Prelude.{◌≡◌, true, [], Some, IfOk};
ghost use Rattle.log.specs.Handle.{max_level, sink};
ghost use Rattle.server_gateway.specs.Filters.{filter_of};

use log::kv::Source;
use log::span::Spans;
use log::{Level, LevelFilter, Line, Log, Logged, Metadata, Record};
use server_options::{LogFormat, LogLevel, Options};
use std::alloc::AllocError;
use std::fmt;
use std::fmt::{Display, Formatter, Write};
use std::time::Clock;

/// The log that is asked for: lines of its level and of graver ones, in its format.
pub fn log_of<R: Clone + Drop>(
    rt: &R,
    options: &Options<'_>,
) -> Result<Logged<R, LogLines<R>>, AllocError>
    ensures level { IfOk result (λ log. max_level log ≡ filter_of options.now.log_level) }
    ensures format { IfOk result (λ log. (sink log).format ≡ options.now.log_format) }
{
    let lines = LogLines::new(rt.clone()?, options.log_format);
    Ok(Logged::new(rt.clone()?, filter_of(options.log_level), lines))
}

/// Which levels are written.
fn filter_of(level: LogLevel) -> LevelFilter
    ensures { result ≡ filter_of level }
{
    match level {
        LogLevel::Error => LevelFilter::Error,
        LogLevel::Warn => LevelFilter::Warn,
        LogLevel::Info => LevelFilter::Info,
        LogLevel::Debug => LevelFilter::Debug,
    }
}

/// Writes each record on the standard error of `R`, as a line.
#[derive(Clone, Copy, Drop)]
pub struct LogLines<R> {
    rt: R,
    format: LogFormat,
}

impl<R> LogLines<R> {
    /// Lines of this format.
    fn new(rt: R, format: LogFormat) -> LogLines<R>
        ensures { result.format ≡ format }
    {
        LogLines { rt, format }
    }
}

impl<R: Eprint + Clock> Log for LogLines<R> {
    ghost enables = { λ _ _ _. Some true };

    ghost target_of = { λ _. Some [] };

    fn enabled(&self, _metadata: &Metadata<'_>) -> bool {
        true
    }

    fn log<D: Display, K: Source, S: Spans>(&self, record: &Record<'_, D, K, S>) {
        let _ = match self.format {
            LogFormat::Text => self.rt.eprintln(Line::new(record)),
            LogFormat::Json => {
                let millis = match self.rt.since_1970() {
                    Ok(since) => since.as_millis(),
                    Err(_) => 0,
                };
                self.rt.eprintln(JsonLine { millis, record })
            }
        };
    }

    fn flush(&self) {}

    fn target(&self) -> &str {
        ""
    }
}

/// Shows a record as an object of JSON: the time in seconds since 1970, the level, where it comes from, and the text. No
/// record of this program has more.
#[derive_where(Clone, Copy)]
struct JsonLine<'a, 'r, D, K, S> {
    millis: u128,
    record: &'a Record<'r, D, K, S>,
}

impl<'a, 'r, D: Display, K: Source, S: Spans> Display for JsonLine<'a, 'r, D, K, S> {
    fn fmt<W: Write>(&self, f: &mut Formatter<W>) -> fmt::Result {
        let (seconds, millis) = (self.millis / 1000, self.millis % 1000);
        let level = level_word(self.record.level());
        write!(
            f,
            "{{\"time\":{seconds}.{millis:03},\"level\":\"{level}\",\"target\":\""
        )?;
        let target = self.record.target();
        write!(Escaped { f: &mut *f }, "{target}")?;
        f.write_str("\",\"message\":\"")?;
        let message = self.record.args();
        write!(Escaped { f: &mut *f }, "{message}")?;
        f.write_str("\"}")
    }
}

/// A level as the option names it.
fn level_word(level: Level) -> &'static str {
    match level {
        Level::Error => "error",
        Level::Warn => "warn",
        Level::Info => "info",
        Level::Debug => "debug",
        Level::Trace => "trace",
    }
}

/// Writes a text as a string of JSON has it (RFC 8259, section 7), without the quotes around it.
struct Escaped<'f, W> {
    f: &'f mut Formatter<W>,
}

impl<'f, W> Drop for Escaped<'f, W> {
    fn drop(self) {
        let Self { f: _ } = self;
    }
}

impl<'f, W: Write> Write for Escaped<'f, W> {
    fn write_str(&mut self, text: &str) -> fmt::Result {
        for letter in text.chars() {
            match letter {
                '"' => self.f.write_str("\\\"")?,
                '\\' => self.f.write_str("\\\\")?,
                '\0'..='\u{1f}' => {
                    let code = letter as u32;
                    write!(self.f, "\\u{code:04x}")?;
                }
                _ => self.f.write_char(letter)?,
            }
        }
        Ok(())
    }
}
