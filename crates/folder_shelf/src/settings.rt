//! Whose a folder is.
ghost use Rattle.std.specs.Prelude.{◌≡◌};

use sha2::{Digest, Sha256};

/// What is hashed before a secret.
const SECRET_TAG: &[u8; 23] = b"wozhinnam shelf secret:";

/// Whose a folder is: a server's of a grid.
#[derive(Clone, Copy, PartialEq, Eq)]
pub struct StoreSettings {
    /// The place of the server among the grid's, counted from 0.
    pub place: u16,
    /// How many servers the grid has.
    pub servers: u16,
    /// How many shares give a file back.
    pub needed: u16,
    /// How many shares are made of a file.
    pub made: u16,
    /// What stands for the secret: the SHA-256 of a tag and the secret.
    pub secret: [u8; 32],
}

impl StoreSettings {
    ghost use Rattle.folder_shelf.specs.SettingsText.{secret_digest};

    /// The settings of the server at `place` of a grid, the secret as its bytes.
    pub fn new(place: u16, servers: u16, needed: u16, made: u16, secret: &[u8]) -> Self
        ensures { result ≡ record {
          place = place;
          servers = servers;
          needed = needed;
          made = made;
          secret = secret_digest secret.now;
        } }
    {
        let mut hasher = Sha256::new();
        hasher.update(SECRET_TAG);
        hasher.update(secret);
        StoreSettings {
            place,
            servers,
            needed,
            made,
            secret: hasher.finalize(),
        }
    }
}
