//! What replies answer.
ghost use Rattle.std.specs.Prelude.{◌≡◌, ◌↔◌, ◌⊎◌, ◌≤◌, ◌<◌, true, IfOk, IfErr, IfSome, IfNone, MatchOption, IsTrue, Contains};
ghost use Rattle.s3_requests.specs.RequestHeads.{is_conditional};
ghost use Rattle.s3_requests.specs.ReplyAnswers.{IsAnswerStatus, IsNoAnswer, IsSettingsStep, put_statuses};
ghost use Rattle.s3_requests.specs.ReplyFaults.{IsReplyFault, IsFullReply, IsClockReply, IsStrangerReply, IsBucketReply, IsConditionReply};
ghost use Rattle.s3_requests.specs.declared.asks.ObjectAsk.TheVariants.{Get};

use crate::asks::ObjectAsk;
use crate::fault::ObjectFault;
use crate::replies::{KnownCode, ObjectReply};
use s3_sign::Method;

/// What a reply says of the object.
#[derive(Clone, Copy, Debug, PartialEq, Eq)]
pub enum ObjectAnswer {
    /// It was put, or taken away.
    Done,
    /// One stands. The reply to a GET has its bytes.
    Stands,
    /// None stands.
    Nothing,
}

/// What comes next where the settings were asked for.
#[derive(Clone, Copy, Debug, PartialEq, Eq)]
pub enum SettingsStep {
    /// What came is compared.
    Compare,
    /// They are put: none stand, and the grid is new.
    Write,
    /// None stand, and the grid isn't new.
    Missing,
}

/// Whether a status says that what came was put.
fn is_put(status: u16) -> bool
    ensures { IsTrue result ↔ Contains put_statuses status }
{
    status == 200 || status == 201 || status == 204
}

/// What a status says of the object that was asked for, `None` where it says nothing.
fn said_of(asked: ObjectAsk, status: u16) -> Option<ObjectAnswer>
    ensures { MatchOption result (IsNoAnswer asked status)
        (λ answer. IsAnswerStatus answer asked status) }
{
    match asked {
        ObjectAsk::Get | ObjectAsk::Head => match status {
            200 => Some(ObjectAnswer::Stands),
            404 => Some(ObjectAnswer::Nothing),
            _ => None,
        },
        ObjectAsk::Delete => match status {
            200 | 204 => Some(ObjectAnswer::Done),
            404 => Some(ObjectAnswer::Nothing),
            _ => None,
        },
        ObjectAsk::PutOnce(_) => match status {
            412 => Some(ObjectAnswer::Stands),
            _ if is_put(status) => Some(ObjectAnswer::Done),
            _ => None,
        },
        ObjectAsk::PutOver(_) => match status {
            _ if is_put(status) => Some(ObjectAnswer::Done),
            _ => None,
        },
    }
}

/// Whether there is no room for more.
fn is_full(reply: ObjectReply) -> bool
    ensures { IsTrue result ↔ IsFullReply reply }
{
    reply.status == 507 || (reply.status == 403 && reply.code == Some(KnownCode::QuotaExceeded))
}

/// Whether the clock says another time.
fn is_of_clock(reply: ObjectReply) -> bool
    ensures { IsTrue result ↔ IsClockReply reply }
{
    reply.status == 403 && reply.code == Some(KnownCode::RequestTimeTooSkewed)
}

/// Whether who asks isn't taken.
fn is_stranger(reply: ObjectReply) -> bool
    ensures { IsTrue result ↔ IsStrangerReply reply }
{
    match (reply.status, reply.code) {
        (401, _) => true,
        (
            403,
            Some(
                KnownCode::SignatureDoesNotMatch
                | KnownCode::InvalidAccessKeyId
                | KnownCode::UserSuspended,
            ),
        ) => true,
        (400, Some(KnownCode::AuthorizationHeaderMalformed)) => true,
        _ => false,
    }
}

/// Whether there is no bucket.
fn is_of_bucket(asked: ObjectAsk, reply: ObjectReply) -> bool
    ensures { IsTrue result ↔ IsBucketReply asked reply }
{
    matches!(asked.method(), Method::Put) && reply.status == 404
}

/// Whether there are no conditions.
fn is_of_condition(asked: ObjectAsk, reply: ObjectReply) -> bool
    ensures { IsTrue result ↔ IsConditionReply asked reply }
{
    asked.is_conditional() && reply.status == 501
}

/// What is wrong with a reply that answers nothing.
fn fault_of(asked: ObjectAsk, reply: ObjectReply) -> ObjectFault
    ensures { IsReplyFault result asked reply }
{
    if is_full(reply) {
        return ObjectFault::Full;
    }
    if is_of_clock(reply) {
        return ObjectFault::OtherClock;
    }
    if is_stranger(reply) {
        return ObjectFault::NotAdmitted;
    }
    if is_of_bucket(asked, reply) {
        return ObjectFault::NoBucket;
    }
    if is_of_condition(asked, reply) {
        return ObjectFault::NoConditions;
    }
    match reply.status {
        429 | 500..=599 => ObjectFault::Busy,
        300..=499 => ObjectFault::Refused,
        _ => ObjectFault::OtherReply,
    }
}

/// What a reply says of the object that was asked for. Or why it says nothing of it.
pub fn answer_of(asked: ObjectAsk, reply: ObjectReply) -> Result<ObjectAnswer, ObjectFault>
    ensures answer { IfOk result (λ answer. IsAnswerStatus answer asked reply.status) }
    ensures fault { IfErr result (λ fault. IsReplyFault fault asked reply) }
    ensures none { IfErr result (λ fault. IsNoAnswer asked reply.status) }
{
    match said_of(asked, reply.status) {
        Some(answer) => Ok(answer),
        None => Err(fault_of(asked, reply)),
    }
}

/// Whether it is asked once more: another was at work at the same name (409 to a PUT that has a condition). Where the
/// second reply is such a one it is taken as [`answer_of`] takes it, which is `Refused`.
pub fn is_asked_again(asked: ObjectAsk, reply: ObjectReply) -> bool
    ensures { IsTrue result ↔ ((is_conditional asked ≡ true) × (reply.status ≡ 409)) }
{
    asked.is_conditional() && reply.status == 409
}

/// What comes next where the settings were asked for by a GET and a reply came: they are put only where none stand and
/// the operator says that the grid is new. Or why it says nothing of them.
pub fn settings_step(reply: ObjectReply, is_new: bool) -> Result<SettingsStep, ObjectFault>
    ensures step { IfOk result (λ step. IsSettingsStep step reply.status is_new) }
    ensures fault { IfErr result (λ fault. IsReplyFault fault Get reply) }
    ensures none { IfErr result (λ fault. IsNoAnswer Get reply.status) }
{
    match answer_of(ObjectAsk::Get, reply)? {
        ObjectAnswer::Nothing if is_new => Ok(SettingsStep::Write),
        ObjectAnswer::Nothing => Ok(SettingsStep::Missing),
        _ => Ok(SettingsStep::Compare),
    }
}
