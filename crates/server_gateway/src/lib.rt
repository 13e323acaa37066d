//! The gateway that the server serves, and what stands beside it, opened as the options say: stores, secrets, pages, the log,
//! the control listener's token. It knows no loop and no socket of a caller.
#![tactic(auto)]

/// How the log is written.
mod log_lines;
/// The commit that the program was built of.
mod commit;
/// The token of the control listener, and what answers there.
mod control_token;
/// The file of options.
mod option_words;
/// Pages beside the web API.
mod pages;
/// The secrets of the gateway and of listeners.
mod secret;
/// What stores are opened with.
mod store_runtime;
/// How many files may be open.
mod open_files;
/// The gateway over its stores.
mod gateway;

pub use commit::read_commit;
pub use control_token::control_of;
pub use gateway::open_gateway;
pub use log_lines::log_of;
pub use open_files::few_handles;
pub use option_words::{name_file, words_of_file};
pub use pages::pages_of;
pub use secret::Secret;
pub use store_runtime::StoreRuntime;
