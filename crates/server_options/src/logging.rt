//! Which lines the log has, and how they are written.
ghost use Rattle.std.specs.Prelude.{◌≡◌};
ghost use Rattle.server_options.specs.Logging.{named_level, named_format};

/// Which lines the log has: those of a level and of graver ones.
#[derive(Clone, Copy, Debug, PartialEq, Eq)]
pub enum LogLevel {
    Error,
    Warn,
    Info,
    Debug,
}

/// How a line of the log is written.
#[derive(Clone, Copy, Debug, PartialEq, Eq)]
pub enum LogFormat {
    /// As a text.
    Text,
    /// As an object of JSON.
    Json,
}

/// A level by its name, and `Info` for a name of none.
pub fn named_level(name: &str) -> LogLevel
    ensures { result ≡ named_level name.now }
{
    if name == "error" {
        LogLevel::Error
    } else if name == "warn" {
        LogLevel::Warn
    } else if name == "debug" {
        LogLevel::Debug
    } else {
        LogLevel::Info
    }
}

/// A format by its name, and `Text` for a name of none.
pub fn named_format(name: &str) -> LogFormat
    ensures { result ≡ named_format name.now }
{
    if name == "json" {
        LogFormat::Json
    } else {
        LogFormat::Text
    }
}
