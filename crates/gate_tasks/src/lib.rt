//! What `gate_main` does: it answers scripts, which say what comes on which connection and what is taken from it, and it
//! serves connections one after the other, over stores in memory.
#![tactic(auto)]

/// What the arguments ask for.
mod arguments;
/// The calls of a gateway that commands ask for.
mod calls;
/// A line of a script.
mod command;
/// One connection's turns.
mod connection;
/// Why a run ended before its end.
mod fault;
/// What holds of the definitions.
pub mod laws;
/// The lines of a script, one at a time.
mod lines;
/// What a line is answered.
mod reply;
/// The run of a script.
mod script;
/// Connections, served one after the other.
mod serving;
/// What a server begins with.
mod setup;
/// Base32.
mod spelling;
/// The status with which the program exits.
mod status;
/// The stores of a gateway.
mod stores;
/// Bytes as text.
mod text;
/// The verbs of lines.
mod verb;

pub use arguments::{Service, Task, read_task};
pub use calls::MemGateway;
pub use connection::turns;
pub use fault::{ProgramFault, ScriptFault, ServeFault, UsageFault};
pub use script::run_script;
pub use serving::serve_on;
pub use setup::set_up;
pub use status::exit_status;
pub use stores::make_stores;
pub use text::escape;
