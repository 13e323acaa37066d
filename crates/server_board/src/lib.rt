//! What the control listener of the server answers: figures as JSON and in the text format of Prometheus, and the stop.
#![tactic(auto)]

/// What stands in a file of one line.
mod line;
/// The commit that the program was built of.
mod commit;
/// The token of the control listener.
mod token;
/// What is known of stores and of replies.
pub mod figures;
/// Figures as JSON.
mod status;
/// Figures in the text format of Prometheus.
mod metrics;
/// How long requests took, in that format.
mod request_times;
/// Which control request is which, and its answer.
mod board;

/// The program's version, which `wozhinnam --version` prints too.
pub const VERSION: &str = "0.1.0";

pub use board::{Asked, Method, StatusControl, asked_by};
pub use commit::Commit;
pub use metrics::metrics_text;
pub use status::status_text;
pub use token::ControlToken;
