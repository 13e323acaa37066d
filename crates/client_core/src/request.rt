//! Requests as bytes.
ghost use Rattle.std.specs.Prelude.{◌≡◌, ◌≤◌, ◌++◌, length, IfOk, OnOk};
ghost use Rattle.httparse.specs.Grammar.{print_request};
ghost use Rattle.http_edge.specs.Frame.{most_head_bytes};
ghost use Rattle.client_core.specs.Asks.{method_of, target_of, asked_head, query_of_check};
ghost use Rattle.std.specs.Prelude.{codes};
ghost use Rattle.caps.specs.CapTexts.{cap_text};

use crate::ask::Ask;
use crate::fault::WireFault;
use caps::{Cap, print};
use std::alloc::{AllocError, Global};
use tag_hash::Decimal;
use tag_hash::laws::decimals_are_read_back;

/// The most bytes of a head that a gateway takes.
const MOST_OF_A_HEAD: usize = 16_384;

/// The head of a request to a host, with a body of so many bytes: two fields, `Host` and `Content-Length`. Refused with
/// [`WireFault::TooLong`] where no gateway would take it.
pub fn request_head(alloc: Global, host: &str, ask: &Ask, size: usize) -> Result<Vec<u8>, WireFault>
    ensures head { IfOk result (λ text. text.items
        ≡ print_request (asked_head host.now ask.now size)) }
    ensures short { IfOk result (λ text. length text.items ≤ most_head_bytes) }
{
    let text = head_text(alloc, host, ask, size)?;
    if text.len() > MOST_OF_A_HEAD {
        return Err(WireFault::TooLong);
    }
    Ok(text)
}

/// The same, however long.
fn head_text(alloc: Global, host: &str, ask: &Ask, size: usize) -> Result<Vec<u8>, AllocError>
    ensures { IfOk result (λ text. text.items
        ≡ print_request (asked_head host.now ask.now size)) }
{
    decimals_are_read_back();
    let digits = Decimal::new(size as u64);
    let mut text = Vec::new(alloc);
    text.extend_from_slice(method(ask))?;
    text.extend_from_slice(b" ")?;
    push_target(alloc, &mut text, ask)?;
    text.extend_from_slice(b" HTTP/1.1\r\nHost: ")?;
    text.extend_from_slice(host.as_bytes())?;
    text.extend_from_slice(b"\r\nContent-Length: ")?;
    text.extend_from_slice(digits.as_bytes())?;
    text.extend_from_slice(b"\r\n\r\n")?;
    Ok(text)
}

/// Its method.
fn method(ask: &Ask) -> &'static [u8]
    ensures { result.now ≡ method_of ask.now }
{
    match ask {
        Ask::Put => b"PUT",
        Ask::Mkdir => b"POST",
        Ask::Read(_) => b"GET",
        Ask::Check { .. } => b"POST",
    }
}

/// Appends its target.
fn push_target(alloc: Global, text: &mut Vec<u8>, ask: &Ask) -> Result<(), AllocError>
    ensures { OnOk result (text.new.items ≡ text.old.items ++ target_of ask.now) }
{
    match ask {
        Ask::Put => text.extend_from_slice(b"/uri"),
        Ask::Mkdir => text.extend_from_slice(b"/uri?t=mkdir-immutable"),
        Ask::Read(fields) => push_node(alloc, text, &Cap::Chk(*fields), b""),
        Ask::Check { cap, verify } => {
            push_node(alloc, text, &Cap::from(*cap), check_query(*verify))
        }
    }
}

/// The query of a check.
fn check_query(verify: bool) -> &'static [u8]
    ensures { result.now ≡ query_of_check verify }
{
    if verify {
        b"?t=check&output=JSON&verify=true"
    } else {
        b"?t=check&output=JSON"
    }
}

/// Appends the path of a cap, and a query.
fn push_node(alloc: Global, text: &mut Vec<u8>, cap: &Cap, query: &[u8]) -> Result<(), AllocError>
    ensures { OnOk result (text.new.items
        ≡ text.old.items ++ (codes "/uri/" ++ (cap_text cap.now ++ query.now))) }
{
    caps::laws::caps_have_one_text();
    let cap = print(alloc, cap)?;
    text.extend_from_slice(b"/uri/")?;
    text.extend_from_slice(cap.as_bytes())?;
    text.extend_from_slice(query)
}
