//! Bits that were read and are not yet written.
ghost use Rattle.std.specs.Prelude.{◌≡◌, ◌+◌, ◌<◌, ◌≤◌, ◌^◌, ◌↔◌, ℕ, List, [], ◌++◌, length, replicate, IsTrue};
ghost use Rattle.base32_text.specs.Bits.{bits_of};

use std::marker::Model;

/// At most 16 bits, seen as a list of them, the highest first.
#[derive(Drop)]
pub struct Waiting {
    value: u32,
    count: u32,
}

impl Model for Waiting {
    ghost Value = { List ℕ };

    ghost view = { λ w. bits_of w.count w.value };

    ghost invariant = { λ w. (w.count ≤ 16) × (w.value < 2 ^ w.count) };
}

impl Waiting {
    /// No bits.
    pub fn new() -> Waiting
        ensures { result ≡ [] }
    {
        Waiting { value: 0, count: 0 }
    }

    /// How many bits wait.
    pub fn len(&self) -> u32
        ensures { result ≡ length self.now }
    {
        self.count
    }

    /// Whether none of them is 1.
    pub fn is_zero(&self) -> bool
        ensures { IsTrue result ↔ (self.now ≡ replicate (length self.now) 0) }
    {
        self.value == 0
    }

    /// Puts a number of `width` bits after them.
    pub fn put(&mut self, width: u32, number: u32)
        requires room { length self.old + width ≤ 16 }
        requires fits { number < 2 ^ width }
        ensures { self.new ≡ self.old ++ bits_of width number }
    {
        self.value = (self.value << width) + number;
        self.count += width;
    }

    /// Takes the first `width` bits as a number.
    pub fn take(&mut self, width: u32) -> u32
        requires { width ≤ length self.old }
        ensures fits { result < 2 ^ width }
        ensures bits { self.old ≡ bits_of width result ++ self.new }
    {
        self.count -= width;
        let number = self.value >> self.count;
        self.value -= number << self.count;
        number
    }
}
