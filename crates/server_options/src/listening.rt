//! Where connections are accepted, and under which secrets.
ghost use Rattle.std.specs.Prelude.{◌≡◌, None, IfSome};
ghost use Rattle.server_options.specs.Listening.{HasNoComma, listen_text};

/// Where connections are to be accepted.
#[derive(Clone, Copy, Debug, PartialEq, Eq)]
pub struct ListenWanted<'a> {
    /// The address: HOST:PORT.
    pub address: &'a str,
    /// The file whose bytes are the secret under which the connections are opened that come there. Where this is `None` it
    /// is the gateway's.
    pub secret_file: Option<&'a str>,
}

/// Where a text says that connections are accepted: `ADDR`, or `ADDR,secret=PATH`. An ADDR has no comma. `None` where the
/// text is neither, or PATH is empty.
pub fn read_listen(text: &str) -> Option<ListenWanted<'_>>
    ensures text { IfSome result (λ wanted. listen_text wanted ≡ text.now) }
    ensures address { IfSome result (λ wanted. HasNoComma wanted.address.now) }
    ensures alone { result ≡ None → ¬ (HasNoComma text.now) }
{
    let Some((address, behind)) = text.split_once(',') else {
        return Some(ListenWanted {
            address: text,
            secret_file: None,
        });
    };
    match behind.strip_prefix("secret=") {
        Some(path) if !path.is_empty() => Some(ListenWanted {
            address,
            secret_file: Some(path),
        }),
        _ => None,
    }
}
