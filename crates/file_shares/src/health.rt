//! How healthy a file is.
use std::marker::Model;

/// How healthy a file is, by what stands of it.
#[derive(Drop)]
pub struct Health {
    /// How many shares give the file back.
    pub needed: u16,
    /// How many shares were made.
    pub expected: u16,
    /// Of how many numbers a share stands; where shares were verified, of how many a good one does.
    pub good: u16,
    /// The server and the number of each share that was verified and isn't good, by number and then by server.
    pub corrupt: Vec<(usize, u16)>,
    /// The server and the number of each share that stands; where shares were verified, of each good one. By number and
    /// then by server.
    pub places: Vec<(usize, u16)>,
}

impl Model for Health {
    ghost use Rattle.file_shares.specs.Check.{HealthValue};

    ghost Value = { HealthValue };

    ghost view = { λ h. record {
      needed = h.needed;
      expected = h.expected;
      good = h.good;
      corrupt = h.corrupt.items;
      places = h.places.items;
    } };
}
