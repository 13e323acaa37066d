//! How many replies there were, by status.
ghost use Rattle.std.specs.Prelude.{◌≡◌};
ghost use Rattle.gate_base.specs.Tallies.{nothing_counted, tally_after, tally_more};

use http_edge::Status;

/// How many replies of each status were made so far (RFC 9110, section 15). A number that reached its largest value stays
/// there.
#[derive(Clone, Copy, PartialEq, Eq)]
pub struct Tally {
    pub ok: u64,
    pub partial_content: u64,
    pub not_modified: u64,
    pub bad_request: u64,
    pub not_found: u64,
    pub method_not_allowed: u64,
    pub gone: u64,
    pub content_too_large: u64,
    pub range_not_satisfiable: u64,
    pub not_implemented: u64,
    pub service_unavailable: u64,
}

impl Tally {
    /// No reply was made yet.
    pub fn new() -> Tally
        ensures { result ≡ nothing_counted }
    {
        Tally {
            ok: 0,
            partial_content: 0,
            not_modified: 0,
            bad_request: 0,
            not_found: 0,
            method_not_allowed: 0,
            gone: 0,
            content_too_large: 0,
            range_not_satisfiable: 0,
            not_implemented: 0,
            service_unavailable: 0,
        }
    }

    /// A reply of this status was made.
    pub fn count(&mut self, status: Status)
        ensures { self.new ≡ tally_after status self.old }
    {
        match status {
            Status::Ok => self.ok = one_more(self.ok),
            Status::PartialContent => self.partial_content = one_more(self.partial_content),
            Status::NotModified => self.not_modified = one_more(self.not_modified),
            Status::BadRequest => self.bad_request = one_more(self.bad_request),
            Status::NotFound => self.not_found = one_more(self.not_found),
            Status::MethodNotAllowed => {
                self.method_not_allowed = one_more(self.method_not_allowed);
            }
            Status::Gone => self.gone = one_more(self.gone),
            Status::ContentTooLarge => {
                self.content_too_large = one_more(self.content_too_large);
            }
            Status::RangeNotSatisfiable => {
                self.range_not_satisfiable = one_more(self.range_not_satisfiable);
            }
            Status::NotImplemented => self.not_implemented = one_more(self.not_implemented),
            Status::ServiceUnavailable => {
                self.service_unavailable = one_more(self.service_unavailable);
            }
        }
    }
}

/// One more, as far as 64 bits count.
fn one_more(number: u64) -> u64
    ensures { result ≡ tally_more number }
{
    number.saturating_add(1)
}
