//! Why a text gives no words.
ghost use Rattle.std.specs.Prelude.{◌≡◌};
ghost use Rattle.option_file.specs.declared.fault.OptionFault.TheVariants.{NoMemory};

use octets::Text;
use std::alloc::{AllocError, AllocFailed};
use std::fmt;

/// Why a text gives no words.
#[derive(Drop)]
pub enum OptionFault {
    /// It is no TOML: the line, from 1, at which it isn't, and what is wrong there.
    NotToml(usize, toml::de::Error),
    /// The value of this key is none that an option has.
    OtherKind(Text),
    /// Memory was refused.
    NoMemory,
}

impl fmt::Display for OptionFault {
    fn fmt<W: fmt::Write>(&self, f: &mut fmt::Formatter<W>) -> fmt::Result {
        let words = match self {
            OptionFault::NotToml(line, error) => return write!(
                f,
                "line {line}: {}",
                error.message()
            ),
            OptionFault::OtherKind(key) => return write!(
                f,
                "{}: a text, a whole number, true, false, or an array of texts and whole numbers is wanted",
                key.as_str()
            ),
            OptionFault::NoMemory => "out of memory",
        };
        f.write_str(words)
    }
}

impl From<AllocError> for OptionFault {
    ghost from_gives = { λ _ fault. fault ≡ NoMemory };

    fn from(_error: AllocError) -> OptionFault {
        OptionFault::NoMemory
    }
}

impl<T: Drop> From<AllocFailed<T>> for OptionFault {
    ghost from_gives = { λ _ fault. fault ≡ NoMemory };

    fn from(_error: AllocFailed<T>) -> OptionFault {
        OptionFault::NoMemory
    }
}
