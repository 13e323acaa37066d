//! The token of the control listener.
ghost use Rattle.std.specs.Prelude.{◌≡◌, None, Ok, IfOk};
ghost use Rattle.std.specs.List.{list_all};
ghost use Rattle.server_board.specs.Token.{is_token, is_visible, token_in};

use crate::line::without_line_feed;
use octets::Bytes;
use std::alloc::{AllocError, Global};
use std::marker::Model;

/// How many bytes a token may have.
const MOST_TOKEN: usize = 256;

/// A token that control requests have to bring: 1 to 256 bytes of visible ASCII.
#[derive(Drop)]
pub struct ControlToken {
    bytes: Bytes,
}

impl Model for ControlToken {
    ghost use Rattle.std.specs.Prelude.{List, ℕ};

    ghost Value = { List ℕ };

    ghost view = { λ token. token.bytes };
}

impl ControlToken {
    /// The token of a file with these bytes: all of them, but for a line feed at their end. `None` where that is no token.
    pub fn of(alloc: Global, bytes: &[u8]) -> Result<Option<ControlToken>, AllocError>
        ensures token { IfOk result (λ token. token ≡ token_in bytes.now) }
        ensures none { token_in bytes.now ≡ None → result ≡ Ok None }
    {
        let name = without_line_feed(bytes);
        if !is_token(name) {
            return Ok(None);
        }
        Ok(Some(ControlToken {
            bytes: Bytes::from_slice(alloc, name)?,
        }))
    }

    /// Its bytes.
    pub fn as_slice(&self) -> &[u8]
        ensures { result.now ≡ self.now }
    {
        self.bytes.as_slice()
    }
}

/// Whether these bytes may be a token.
fn is_token(bytes: &[u8]) -> bool
    ensures { result ≡ is_token bytes.now }
{
    !bytes.is_empty() && bytes.len() <= MOST_TOKEN && are_visible(bytes)
}

/// Whether each byte is a visible one of ASCII.
fn are_visible(bytes: &[u8]) -> bool
    ensures { result ≡ list_all is_visible bytes.now }
{
    bytes.iter().all(|byte| is_visible(*byte))
}

/// Whether a byte is a visible one of ASCII.
fn is_visible(byte: u8) -> bool
    ensures { result ≡ is_visible byte }
{
    byte >= b'!' && byte <= b'~'
}
