//! Control requests that come from elsewhere: pages in the browser of somebody who reaches the control address.
ghost use Rattle.std.specs.Prelude.{◌≡◌, ◌||◌, ◌++◌, codes, decimal, string_bytes, IfOk};
ghost use Rattle.std.specs.List.{list_any};
ghost use Rattle.std.specs.Net.Addr.{ipv4_octets, ipv6_segments};
ghost use Rattle.std.specs.Net.Text.{ipv4_text, ipv6_text};
ghost use Rattle.octets.specs.Case.{eq_ignore_case};
ghost use Rattle.gate_limits.specs.Foreign.{foreign_in, host_text, is_foreign_host, is_named, localhost_text, refusal, refusal_head, refusal_text};

use http_edge::Field;
use octets::Text;
use std::alloc::{AllocError, Global};
use std::net::{IpAddr, Ipv4Addr, Ipv6Addr};

/// Why a control request is refused, whatever it asks.
#[derive(Clone, Copy, PartialEq, Eq)]
pub enum Foreign {
    /// It has an Origin field, so a web page asks.
    Page,
    /// Its Host field names something else than the address it came to.
    Host,
}

/// An address that control requests came to.
#[derive(Drop)]
pub struct Here {
    /// Its text, with the port.
    pub address: Text,
    /// `localhost` with its port.
    pub localhost: Text,
}

impl Here {
    /// The texts of an address and its port.
    pub fn of(alloc: Global, ip: IpAddr, port: u16) -> Result<Here, AllocError>
        ensures address { IfOk result (λ here. here.address ≡ host_text ip port) }
        ensures localhost { IfOk result (λ here. here.localhost ≡ localhost_text port) }
    {
        let localhost = format!(in alloc; "localhost:{port}")?;
        Ok(Here {
            address: Text::from_string(host_text(alloc, ip, port)?),
            localhost: Text::from_string(localhost),
        })
    }
}

/// What a Host field says of an address and its port.
fn host_text(alloc: Global, ip: IpAddr, port: u16) -> Result<String, AllocError>
    ensures { IfOk result (λ text. string_bytes text ≡ host_text ip port) }
{
    match ip {
        IpAddr::V4(ip) => v4_text(alloc, ip, port),
        IpAddr::V6(ip) => v6_text(alloc, ip, port),
    }
}

fn v4_text(alloc: Global, ip: Ipv4Addr, port: u16) -> Result<String, AllocError>
    ensures { IfOk result (λ text. string_bytes text
        ≡ ipv4_text (ipv4_octets ip) ++ (codes ":" ++ decimal port)) }
{
    format!(in alloc; "{ip}:{port}")
}

fn v6_text(alloc: Global, ip: Ipv6Addr, port: u16) -> Result<String, AllocError>
    ensures { IfOk result (λ text. string_bytes text
        ≡ codes "[" ++ (ipv6_text (ipv6_segments ip) ++ (codes "]:" ++ decimal port))) }
{
    format!(in alloc; "[{ip}]:{port}")
}

/// Why a request with these fields that came to an address is refused. `None` where it isn't.
pub fn foreign_by(here: &Here, fields: &[Field]) -> Option<Foreign>
    ensures { result ≡ foreign_in here.now.address here.now.localhost fields.now }
{
    if any_is_named(b"origin", fields) {
        Some(Foreign::Page)
    } else if any_is_foreign(here, fields) {
        Some(Foreign::Host)
    } else {
        None
    }
}

/// Whether a field has the name, in any case.
fn any_is_named(name: &[u8], fields: &[Field]) -> bool
    ensures { result ≡ list_any (is_named name.now) fields.now }
{
    fields.iter().any(|field| is_named(name, field))
}

/// Whether a Host field names something else.
fn any_is_foreign(here: &Here, fields: &[Field]) -> bool
    ensures { result ≡ list_any (is_foreign_host here.now.address here.now.localhost) fields.now }
{
    fields.iter().any(|field| is_foreign_host(here, field))
}

/// Whether a field has the name, in any case.
pub fn is_named(name: &[u8], field: &Field) -> bool
    ensures { result ≡ is_named name.now field.now }
{
    is_same(field.name.as_slice(), name)
}

fn is_same(a: &[u8], b: &[u8]) -> bool
    ensures { result ≡ eq_ignore_case a.now b.now }
{
    a.eq_ignore_ascii_case(b)
}

/// Whether a field is a Host field that names something else.
fn is_foreign_host(here: &Here, field: &Field) -> bool
    ensures { result ≡ is_foreign_host here.now.address here.now.localhost field.now }
{
    is_named(b"host", field) && !names(here, field.value.as_slice())
}

/// Whether a text is one of those of an address, in any case.
fn names(here: &Here, host: &[u8]) -> bool
    ensures { result ≡ (eq_ignore_case host.now here.now.address || eq_ignore_case host.now here.now.localhost) }
{
    is_same(host, here.address.as_str().as_bytes())
        || is_same(host, here.localhost.as_str().as_bytes())
}

/// What a request is told that is refused. One of HEAD gets no body (RFC 9110, section 9.3.2).
pub fn refusal(alloc: Global, why: Foreign, head_only: bool) -> Result<Vec<u8>, AllocError>
    ensures { IfOk result (λ bytes. bytes.items ≡ refusal why head_only) }
{
    let mut bytes = Vec::from_slice(alloc, refusal_head(why))?;
    if !head_only {
        bytes.extend_from_slice(refusal_text(why))?;
    }
    Ok(bytes)
}

/// The head of what a request is told that is refused.
fn refusal_head(why: Foreign) -> &'static [u8]
    ensures { result.now ≡ refusal_head why }
{
    match why {
        Foreign::Page =>
            b"HTTP/1.1 403 Forbidden\r\nContent-Type: text/plain; charset=utf-8\r\nContent-Length: 51\r\nConnection: close\r\n\r\n",
        Foreign::Host =>
            b"HTTP/1.1 403 Forbidden\r\nContent-Type: text/plain; charset=utf-8\r\nContent-Length: 80\r\nConnection: close\r\n\r\n",
    }
}

/// Why it is refused, as a line.
fn refusal_text(why: Foreign) -> &'static [u8]
    ensures { result.now ≡ refusal_text why }
{
    match why {
        Foreign::Page => b"refused: an Origin field says that a web page asks\n",
        Foreign::Host =>
            b"refused: the Host field names neither this address nor localhost, with its port\n",
    }
}
