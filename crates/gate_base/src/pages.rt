//! Pages of the gateway's own, beside the web API.
ghost use Rattle.std.specs.Prelude.{◌≡◌, [], bytes_eq, IfOk, IsErr, Some};
ghost use Rattle.std.specs.Option.{option_copied};
ghost use Rattle.gate_base.specs.Pages.{page_at, page_read, is_reading, is_elsewhere, reply_elsewhere};
ghost use Rattle.web_request.specs.declared.fault.WebFault.TheVariants.{NoMemory};

use octets::Bytes;
use std::alloc::{AllocError, Global};
use std::marker::Model;
use web_replies::{MediaType, Reply, SharedBytes, page, refusal};
use web_request::{Head, WebFault, path_in};

/// A page: the path at which it is read, as `/style.css`, what it is, and its bytes.
#[derive(Drop)]
pub struct Page {
    /// The path, as a target has it. One that names something of the web API is never read.
    pub path: Bytes,
    /// What the bytes are.
    pub kind: MediaType,
    /// The bytes, which replies share.
    pub body: SharedBytes,
}

/// Pages, which contracts see as a list. Of two at one path the first is read.
#[derive(Drop)]
pub struct Pages {
    pages: Vec<Page>,
}

impl Model for Pages {
    ghost use Rattle.std.specs.Prelude.{List};
    ghost use Rattle.gate_base.specs.declared.pages.Page.{Page};

    ghost Value = { List Page };

    ghost view = { λ p. p.pages.items };
}

impl Pages {
    /// No pages. Takes no memory.
    pub fn new(alloc: Global) -> Pages
        ensures { result ≡ [] }
    {
        Pages {
            pages: Vec::new(alloc),
        }
    }

    /// The pages of a vector, which isn't copied.
    pub fn from_vec(pages: Vec<Page>) -> Pages
        ensures { result ≡ pages.items }
    {
        Pages { pages }
    }

    /// The first page at a path.
    fn at(&self, path: &[u8]) -> Option<&Page>
        ensures { option_copied result ≡ page_at self.now (Some path.now) }
    {
        self.pages.iter().find(|page| is_at(page, path))
    }
}

/// Whether a page is read at a path.
fn is_at(page: &Page, path: &[u8]) -> bool
    ensures { result ≡ bytes_eq page.now.path path.now }
{
    page.path.as_slice() == path
}

/// Whether a method reads pages.
fn is_reading(method: &[u8]) -> bool
    ensures { result ≡ is_reading method.now }
{
    method == b"GET".as_slice() || method == b"HEAD".as_slice()
}

/// Whether a fault says that a path names nothing of the web API.
fn is_elsewhere(fault: &WebFault) -> bool
    ensures { result ≡ is_elsewhere fault.now }
{
    match fault {
        WebFault::NoResource => true,
        WebFault::BadTarget
        | WebFault::BadMethod(_)
        | WebFault::BadQuery
        | WebFault::BadEscape
        | WebFault::NotUtf8
        | WebFault::TooManyNames
        | WebFault::EmptyName
        | WebFault::BadCap
        | WebFault::NoMemory => false,
    }
}

/// The page that is read by a method and a target that are no request of the web API, for this fault.
#[tactic(auto, unfolding(crate::specs::Pages::page_read))]
fn page_read<'a>(
    pages: &'a Pages,
    method: &[u8],
    target: &[u8],
    fault: &WebFault,
) -> Option<&'a Page>
    ensures { option_copied result ≡ page_read pages.now method.now target.now fault.now }
{
    if !is_elsewhere(fault) || !is_reading(method) {
        return None;
    }
    match path_in(target) {
        Some(path) => pages.at(path),
        None => None,
    }
}

/// The reply to what is no request of the web API: the page that it reads, or the refusal of its fault.
pub fn elsewhere(
    alloc: Global,
    pages: &Pages,
    head: &Head,
    fault: &WebFault,
) -> Result<Reply, AllocError>
    ensures reply { IfOk result (λ reply.
        reply ≡ reply_elsewhere pages.now head.now.method head.now.target fault.now) }
    ensures no_memory { fault.now ≡ NoMemory → IsErr result }
{
    match page_read(pages, head.method.as_slice(), head.target.as_slice(), fault) {
        Some(found) => page(found.kind, &found.body),
        None => refusal(alloc, fault),
    }
}
