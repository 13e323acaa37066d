//! What the control listener answers.
ghost use Rattle.std.specs.Prelude.{◌≡◌, ◌≢◌, ◌↔◌, [], ◌∷◌, codes, IsTrue, IfOk};
ghost use Rattle.http_edge.specs.declared.reply.Status.TheVariants as statuses;
ghost use Rattle.server_board.specs.Asked.{asked_by_method, control_asked};
ghost use Rattle.server_board.specs.Replies.{allow_field, line_field, type_field, IsBoardAnswer, IsHeaded, IsLineReply};
ghost use Rattle.server_board.specs.declared.board.Asked.TheVariants as asked;
ghost use Rattle.server_board.specs.declared.board.Method.TheVariants as methods;

use crate::commit::Commit;
use crate::figures::store_figures;
use crate::metrics::metrics_text;
use crate::status::status_text;
use crate::token::ControlToken;
use gate_control::{Answer, Control};
use gate_core::Gateway;
use gate_limits::Counts;
use http_edge::{Head, Reply, ReplyField, ReplyFields, Status};
use octets::Bytes;
use share_store::Store;
use std::alloc::{AllocError, Global};

/// Answers `GET /status`, `GET /metrics` and `POST /stop`.
#[derive(Drop)]
pub struct StatusControl {
    /// The token that each request has to bring, if one is wanted.
    pub token: Option<ControlToken>,
    /// The commit that the program was built of, where it is known.
    pub commit: Option<Commit>,
}

/// What a control request asks for.
#[derive(Clone, Copy, Debug, PartialEq, Eq)]
pub enum Asked {
    Status,
    Metrics,
    Stop,
    /// Another method than the one that the target has.
    NotWith(Method),
    Nothing,
}

/// The method that a target has.
#[derive(Clone, Copy, Debug, PartialEq, Eq)]
pub enum Method {
    Get,
    Post,
}

impl<S: Store> Control<S> for StatusControl {
    ghost wanted = { λ control. control.token };

    fn token(&self) -> Option<&[u8]> {
        match &self.token {
            Some(token) => Some(token.as_slice()),
            None => None,
        }
    }

    fn answer(
        &mut self,
        alloc: Global,
        head: &Head,
        counts: &Counts,
        gateway: &Gateway<S>,
    ) -> Result<Answer, AllocError>
        ensures stops { IfOk result (λ answer. IsTrue answer.stops
            ↔ ((head.now.method ≡ codes "POST") × (head.now.target ≡ codes "/stop"))) }
        ensures reply { IfOk result (λ answer.
            IsBoardAnswer (control_asked head.now.method head.now.target) answer.reply) }
    {
        let asked = asked_by(head.method.as_slice(), head.target.as_slice());
        let reply = reply_to(alloc, asked, self.commit.as_ref(), counts, gateway)?;
        Ok(Answer {
            reply,
            stops: asked == Asked::Stop,
        })
    }
}

/// What is answered where this is asked for.
fn reply_to<S: Store>(
    alloc: Global,
    wanted: Asked,
    commit: Option<&Commit>,
    counts: &Counts,
    gateway: &Gateway<S>,
) -> Result<Reply, AllocError>
    ensures { IfOk result (IsBoardAnswer wanted) }
{
    match wanted {
        Asked::Status => status_reply(alloc, commit, counts, gateway),
        Asked::Metrics => metrics_reply(alloc, commit, counts, gateway),
        Asked::Stop => line_reply(alloc, Status::Ok, b"stopping\n"),
        Asked::NotWith(method) => other_method(alloc, method),
        Asked::Nothing => line_reply(alloc, Status::NotFound, b"not found\n"),
    }
}

/// What a method and a target ask for. Only `POST /stop` asks for the stop.
pub fn asked_by(method: &[u8], target: &[u8]) -> Asked
    ensures asked { result ≡ control_asked method.now target.now }
    ensures stop { (result ≡ asked.Stop)
        ↔ ((method.now ≡ codes "POST") × (target.now ≡ codes "/stop")) }
{
    if target == b"/stop".as_slice() {
        if method == b"POST".as_slice() {
            Asked::Stop
        } else {
            Asked::NotWith(Method::Post)
        }
    } else if target == b"/status".as_slice() {
        with_get(method, Asked::Status)
    } else if target == b"/metrics".as_slice() {
        with_get(method, Asked::Metrics)
    } else {
        Asked::Nothing
    }
}

/// What is asked for with GET, and with no other method.
fn with_get(method: &[u8], wanted: Asked) -> Asked
    requires { wanted ≢ asked.Stop }
    ensures asked { result ≡ asked_by_method method.now (codes "GET") methods.Get wanted }
    ensures no_stop { result ≢ asked.Stop }
{
    if method == b"GET".as_slice() {
        wanted
    } else {
        Asked::NotWith(Method::Get)
    }
}

/// The figures as JSON.
fn status_reply<S: Store>(
    alloc: Global,
    commit: Option<&Commit>,
    counts: &Counts,
    gateway: &Gateway<S>,
) -> Result<Reply, AllocError>
    ensures { IfOk result (IsBoardAnswer asked.Status) }
{
    let stores = store_figures(alloc, gateway)?;
    let text = status_text(alloc, commit, counts, &gateway.tally(), &stores)?;
    let kind = ReplyField::constant(b"Content-Type", b"application/json");
    reply_of(alloc, Status::Ok, kind, Bytes::from_vec(text.into_bytes()))
}

/// A reply with this body, whose type the field says.
fn reply_of(
    alloc: Global,
    status: Status,
    kind: ReplyField,
    body: Bytes,
) -> Result<Reply, AllocError>
    ensures head { IfOk result (IsHeaded status (kind ∷ [])) }
    ensures body { IfOk result (λ reply. reply.body ≡ body) }
{
    let mut fields = ReplyFields::new(alloc);
    fields.push(kind)?;
    Ok(Reply {
        status,
        fields,
        body,
    })
}

/// A reply with a line of text.
fn line_reply(alloc: Global, status: Status, line: &[u8]) -> Result<Reply, AllocError>
    ensures { IfOk result (IsLineReply status (line_field ∷ []) line.now) }
{
    let kind = ReplyField::constant(b"Content-Type", b"text/plain; charset=utf-8");
    reply_of(alloc, status, kind, Bytes::from_slice(alloc, line)?)
}

/// The figures as Prometheus reads them.
fn metrics_reply<S: Store>(
    alloc: Global,
    commit: Option<&Commit>,
    counts: &Counts,
    gateway: &Gateway<S>,
) -> Result<Reply, AllocError>
    ensures { IfOk result (IsBoardAnswer asked.Metrics) }
{
    let stores = store_figures(alloc, gateway)?;
    let text = metrics_text(alloc, commit, counts, &gateway.tally(), &stores)?;
    let kind = ReplyField::constant(b"Content-Type", b"text/plain; version=0.0.4; charset=utf-8");
    reply_of(alloc, Status::Ok, kind, Bytes::from_vec(text.into_bytes()))
}

/// Says which method a target has.
fn other_method(alloc: Global, method: Method) -> Result<Reply, AllocError>
    ensures { IfOk result (IsBoardAnswer (asked.NotWith method)) }
{
    let allow = allow_field(method);
    let mut reply = line_reply(alloc, Status::MethodNotAllowed, b"method not allowed\n")?;
    reply.fields.push(allow)?;
    Ok(reply)
}

/// The field that says which method a target has.
fn allow_field(method: Method) -> ReplyField
    ensures { result ≡ allow_field method }
{
    match method {
        Method::Get => ReplyField::constant(b"Allow", b"GET"),
        Method::Post => ReplyField::constant(b"Allow", b"POST"),
    }
}
