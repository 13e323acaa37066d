//! What is looked at of a reply.
ghost use Rattle.std.specs.Prelude.{◌≡◌, ◌≢◌, MatchOption};
ghost use Rattle.s3_requests.specs.ReplyFaults.{code_word};
ghost use Rattle.s3_requests.specs.declared.replies.KnownCode.{KnownCode as Known};

/// A code of an error by which it is known what is wrong.
#[derive(Clone, Copy, PartialEq, Eq)]
pub enum KnownCode {
    /// The bucket, or its user, may have no more.
    QuotaExceeded,
    /// The secret is another one.
    SignatureDoesNotMatch,
    /// There is no such key.
    InvalidAccessKeyId,
    /// The key's user may do nothing.
    UserSuspended,
    /// The signature is for another region.
    AuthorizationHeaderMalformed,
    /// The engine's clock says another time, by some 15 minutes or more.
    RequestTimeTooSkewed,
}

impl KnownCode {
    /// The code that is spelled so, `None` where it is none of these.
    pub fn read(text: &[u8]) -> Option<KnownCode>
        ensures { MatchOption result ((known : Known) → text.now ≢ code_word known)
            (λ known. text.now ≡ code_word known) }
    {
        if text == b"QuotaExceeded".as_slice() {
            return Some(KnownCode::QuotaExceeded);
        }
        if text == b"SignatureDoesNotMatch".as_slice() {
            return Some(KnownCode::SignatureDoesNotMatch);
        }
        if text == b"InvalidAccessKeyId".as_slice() {
            return Some(KnownCode::InvalidAccessKeyId);
        }
        if text == b"UserSuspended".as_slice() {
            return Some(KnownCode::UserSuspended);
        }
        if text == b"AuthorizationHeaderMalformed".as_slice() {
            return Some(KnownCode::AuthorizationHeaderMalformed);
        }
        if text == b"RequestTimeTooSkewed".as_slice() {
            return Some(KnownCode::RequestTimeTooSkewed);
        }
        None
    }
}

/// What is looked at of a reply.
#[derive(Clone, Copy)]
pub struct ObjectReply {
    /// Its status.
    pub status: u16,
    /// The code of the error in its body: `None` where there is none, or none that is known.
    pub code: Option<KnownCode>,
}
