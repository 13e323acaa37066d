//! The four texts of an entry.
ghost use Rattle.std.specs.Prelude.{◌≡◌, option_map};
ghost use Rattle.dir_codec.specs.Parts.{first_netstring, four_texts, first_entry};
ghost use Rattle.dir_codec.specs.Cuts.{both_now, texts_now, entry_now};

use tag_hash::read_netstring;

/// The four texts of an entry, as they lie in a directory text.
#[derive(Clone, Copy)]
pub(crate) struct Parts<'a> {
    /// The name.
    pub name: &'a [u8],
    /// The text of the cap that reads the child.
    pub cap: &'a [u8],
    /// The text of the cap that could change the child.
    pub write: &'a [u8],
    /// The metadata.
    pub metadata: &'a [u8],
}

/// The four texts of the entry that a text begins with, and what follows it.
pub(crate) fn first_entry(text: &[u8]) -> Option<(Parts<'_>, &[u8])>
    ensures { option_map entry_now result ≡ first_entry text.now }
{
    let (inside, rest) = first_netstring(text)?;
    let parts = four_texts(inside)?;
    Some((parts, rest))
}

/// The four texts that bytes are the netstrings of.
fn four_texts(bytes: &[u8]) -> Option<Parts<'_>>
    ensures { option_map texts_now result ≡ four_texts bytes.now }
{
    let (name, rest) = first_netstring(bytes)?;
    let (cap, rest) = first_netstring(rest)?;
    let (write, rest) = first_netstring(rest)?;
    let (metadata, rest) = first_netstring(rest)?;
    if !rest.is_empty() {
        return None;
    }
    Some(Parts {
        name,
        cap,
        write,
        metadata,
    })
}

/// The bytes of the netstring that bytes begin with, and what follows it.
fn first_netstring(bytes: &[u8]) -> Option<(&[u8], &[u8])>
    ensures { option_map both_now result ≡ first_netstring bytes.now }
{
    match read_netstring(bytes, 0) {
        Ok((span, next)) => Some((&bytes[span.start..span.start + span.len], &bytes[next..])),
        Err(_) => None,
    }
}
