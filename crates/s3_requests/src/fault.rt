//! Why a reply is no answer.
ghost use Rattle.std.specs.Prelude.{◌≡◌};
ghost use Rattle.s3_requests.specs.ReplyFaults.{ends_start, is_counted, keeps_lane, rests_after};

use std::fmt;

/// Why a reply is no answer.
#[derive(Clone, Copy, Debug, PartialEq, Eq)]
pub enum ObjectFault {
    /// There is no room for more: 507, or 403 with `QuotaExceeded`.
    Full,
    /// The server has too much to do, or something is wrong with it: 429, or another 5xx.
    Busy,
    /// It doesn't take who asks: 401, 403 with `SignatureDoesNotMatch`, `InvalidAccessKeyId` or `UserSuspended`, or 400
    /// with `AuthorizationHeaderMalformed`, which is another region.
    NotAdmitted,
    /// Its clock says another time: 403 with `RequestTimeTooSkewed`.
    OtherClock,
    /// It doesn't do what it was told: another 4xx, or a 3xx.
    Refused,
    /// There is no bucket: 404 to a PUT.
    NoBucket,
    /// It has no conditions: 501 to a PUT that has one.
    NoConditions,
    /// The status is none that a reply to what was asked has, as 206 to a request for all bytes.
    OtherReply,
}

impl ObjectFault {
    /// Whether the server is left alone for a while.
    pub fn rests(self) -> bool
        ensures { result ≡ rests_after self }
    {
        matches!(
            self,
            ObjectFault::Busy
                | ObjectFault::NotAdmitted
                | ObjectFault::OtherClock
                | ObjectFault::NoBucket
                | ObjectFault::OtherReply
        )
    }

    /// Whether the connection is used on.
    pub fn keeps_lane(self) -> bool
        ensures { result ≡ keeps_lane self }
    {
        !matches!(self, ObjectFault::OtherReply)
    }

    /// Whether the call that met it counts as one that failed.
    pub fn is_counted(self) -> bool
        ensures { result ≡ is_counted self }
    {
        !matches!(self, ObjectFault::Full)
    }

    /// Whether the program ends where a server says so as it starts.
    pub fn ends_start(self) -> bool
        ensures { result ≡ ends_start self }
    {
        matches!(
            self,
            ObjectFault::NotAdmitted
                | ObjectFault::OtherClock
                | ObjectFault::NoBucket
                | ObjectFault::NoConditions
        )
    }
}

impl fmt::Display for ObjectFault {
    fn fmt<W: fmt::Write>(&self, f: &mut fmt::Formatter<W>) -> fmt::Result {
        f.write_str(match self {
            ObjectFault::Full => "the server is full",
            ObjectFault::Busy => "the server is busy",
            ObjectFault::NotAdmitted => "the server refused the key",
            ObjectFault::OtherClock => "the server's clock says another time",
            ObjectFault::Refused => "the server refused",
            ObjectFault::NoBucket => "there is no such bucket",
            ObjectFault::NoConditions => "the server has no conditions: say put=over",
            ObjectFault::OtherReply => "the reply is none to what was asked",
        })
    }
}
