//! A list of names.
ghost use Rattle.std.specs.Prelude.{◌≡◌};

use octets::Text;
use std::marker::Model;

/// Names, each below the one before it, which contracts see as a list.
#[derive(Drop)]
pub struct Names {
    names: Vec<Text>,
}

impl Model for Names {
    ghost use Rattle.std.specs.Prelude.{List, ℕ};

    ghost Value = { List (List ℕ) };

    ghost view = { λ n. n.names.items };
}

impl Names {
    /// The names of a vector, which isn't copied.
    pub fn from_vec(names: Vec<Text>) -> Self
        ensures { result ≡ names.items }
    {
        Names { names }
    }

    /// The names as a slice.
    pub fn as_slice(&self) -> &[Text]
        ensures { result.now ≡ self.now }
    {
        self.names.as_slice()
    }
}
