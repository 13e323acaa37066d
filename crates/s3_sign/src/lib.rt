//! Amazon's Signature Version 4 for S3 in its header form: the head of a request to a store of objects, signed by who
//! has the key. Requests are in path style and have no query, and their bodies aren't signed. Names are such that
//! nothing in them is escaped.
#![tactic(auto)]

/// Seconds of the calendar.
mod utc_time;
/// Dates of days.
mod calendar;
/// Why a second has no text.
mod fault;
/// What is asked of an object.
mod request;
/// What is signed as it stands.
mod spelling;
/// The canonical request.
mod canonical;
/// The string to sign, and the key of a day.
mod signing;
/// Who signs.
mod signer;

pub use canonical::canonical_request;
pub use fault::ClockFault;
pub use request::{Method, ObjectRequest};
pub use signer::Signer;
pub use signing::{signing_key, string_to_sign};
pub use spelling::is_visible;
pub use utc_time::UtcTime;
