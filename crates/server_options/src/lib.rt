//! The server's command line: its words, and what they ask for.
//!
//! [`read_words`] reads them by `clap` and gives a [`Task`]; [`read_config`] says which file has more options.
#![tactic(auto)]

/// The program's command line.
mod arguments;
/// Sizes in bytes.
mod sizes;
/// Stores and their names.
mod store_names;
/// Where connections are accepted, and under which secrets.
mod listening;
/// Which lines the log has, and how they are written.
mod logging;
/// What the program is asked for.
mod options;

pub use listening::{ListenWanted, read_listen};
pub use logging::{LogFormat, LogLevel, named_format, named_level};
pub use options::{
    Options, Refusal, Repairing, Reshaping, Restoring, Shares, Task, read_config, read_words,
};
pub use sizes::read_size;
pub use store_names::{RedisPlace, StoreWanted, read_redis_place, read_store};
