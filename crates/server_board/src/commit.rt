//! The commit that the program was built of.
ghost use Rattle.std.specs.Prelude.{◌≡◌, Some, IfOk, IfSome};
ghost use Rattle.std.specs.Char.{is_ascii_hexdigit};
ghost use Rattle.std.specs.List.{list_all};
ghost use Rattle.server_board.specs.Commit.{commit_in, is_commit};

use crate::line::without_line_feed;
use octets::Text;
use std::alloc::{AllocError, Global};
use std::marker::Model;
use std::str;

/// The name of a commit: 7 to 64 hexadecimal digits.
#[derive(Drop)]
pub struct Commit {
    name: Text,
}

impl Model for Commit {
    ghost use Rattle.std.specs.Prelude.{List, ℕ};

    ghost Value = { List ℕ };

    ghost view = { λ commit. commit.name };
}

impl Commit {
    /// The commit that a file with these bytes names, with a line feed behind its name or none. `None` where it names none.
    pub fn named_by(alloc: Global, bytes: &[u8]) -> Result<Option<Commit>, AllocError>
        ensures { IfOk result (λ commit.
            IfSome commit (λ commit. commit_in bytes.now ≡ Some commit)) }
    {
        let name = without_line_feed(bytes);
        if !is_commit(name) {
            return Ok(None);
        }
        match str::from_utf8(name) {
            Ok(text) => Ok(Some(Commit {
                name: Text::from_string(String::from_str(alloc, text)?),
            })),
            Err(_) => Ok(None),
        }
    }

    /// Its name.
    pub fn as_str(&self) -> &str
        ensures { result.now ≡ self.now }
    {
        self.name.as_str()
    }
}

/// Whether a commit may have this name.
fn is_commit(name: &[u8]) -> bool
    ensures { result ≡ is_commit name.now }
{
    name.len() >= 7 && name.len() <= 64 && are_hexadecimal(name)
}

/// Whether each byte is a hexadecimal digit.
fn are_hexadecimal(name: &[u8]) -> bool
    ensures { result ≡ list_all is_ascii_hexdigit name.now }
{
    name.iter().all(|byte| byte.is_ascii_hexdigit())
}
