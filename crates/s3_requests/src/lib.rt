//! What a store of objects is asked for shares, and what its replies say: requests to an engine that speaks S3, signed
//! by [`s3_sign`], as texts, and the statuses and error codes of replies. No sockets and no states.
#![tactic(auto)]

/// Where objects stand, and what a bucket and a prefix are.
mod sites;
/// Names of objects.
mod names;
/// What is asked of an object.
mod asks;
/// Heads of requests.
mod heads;
/// What is looked at of a reply.
mod replies;
/// Why a reply is no answer.
mod fault;
/// What replies answer.
mod answers;
/// Where an error's code stands in a body.
mod error_codes;
/// What holds of names and of what replies answer.
pub mod laws;

pub use answers::{ObjectAnswer, SettingsStep, answer_of, is_asked_again, settings_step};
pub use asks::ObjectAsk;
pub use error_codes::{code_in, keep_first};
pub use fault::ObjectFault;
pub use heads::put_head;
pub use names::{object_name, settings_name};
pub use replies::{KnownCode, ObjectReply};
pub use sites::{ObjectSite, is_bucket, is_prefix};
