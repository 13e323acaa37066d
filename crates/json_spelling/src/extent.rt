//! How deep JSON nests, and whether all its numbers are whole.
ghost use Rattle.std.specs.Prelude.{◌≡◌, ◌+◌, ◌<◌, ◌^◌, max, ◌||◌, not, ◌&&◌, nat_le, false};
ghost use Rattle.json_spelling.specs.Spelled.{IsExtent};

/// Levels of arrays and objects in metadata, at most. `{}` is one level.
pub(crate) const MOST_LEVELS: usize = 100;

/// What metadata are measured by.
#[derive(Clone, Copy, Drop)]
pub struct Extent {
    /// Levels of arrays and objects; 0 of a value that is neither.
    pub levels: usize,
    /// Whether a number is not a whole one of 64 bits.
    pub fractional: bool,
}

impl Extent {
    /// That of a value that is no array, object or number.
    pub(crate) fn flat() -> Self
        ensures { IsExtent result 0 false }
    {
        Extent {
            levels: 0,
            fractional: false,
        }
    }

    /// That of both, beside each other.
    pub(crate) fn beside(self, other: Self) -> Self
        ensures { IsExtent result (max self.levels other.levels) (self.fractional || other.fractional) }
    {
        Extent {
            levels: if self.levels < other.levels {
                other.levels
            } else {
                self.levels
            },
            fractional: self.fractional | other.fractional,
        }
    }

    /// That of an array or an object around it.
    pub(crate) fn opened(self) -> Self
        requires { self.levels + 1 < 2 ^ 64 }
        ensures { IsExtent result (self.levels + 1) self.fractional }
    {
        Extent {
            levels: self.levels + 1,
            fractional: self.fractional,
        }
    }

    /// Whether an object of this extent is metadata.
    pub fn fits(self) -> bool
        ensures { result ≡ (not self.fractional && nat_le self.levels 100) }
    {
        !self.fractional && self.levels <= MOST_LEVELS
    }
}
