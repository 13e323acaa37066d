//! What holds of base32, whatever the bytes and the text.
ghost use Rattle.std.specs.Prelude.{◌≡◌, ◌≢◌, ◌<◌, ◌↔◌, ℕ, List, All, Ok, Err};
ghost use Rattle.base32_text.specs.Base32.{Spells, spelling};
ghost use Rattle.base32_text.specs.Refusals.{Refuses};
ghost use Rattle.base32_text.specs.Reading.{reading};
ghost use Rattle.base32_text.specs.declared.fault.B32Fault.{B32Fault};
ghost use Rattle.base32_text.specs.declared.fault.B32Fault.TheVariants.{NoMemory};

/// Two texts that spell the same bytes are one.
pub fn bytes_have_one_text()
    ensures { (bytes text other : List ℕ) → Spells text bytes → Spells other bytes → text ≡ other }
{}

/// Two lists of bytes that one text spells are one.
pub fn texts_have_one_meaning()
    ensures { (text bytes other : List ℕ) → Spells text bytes → Spells text other → bytes ≡ other }
{}

/// All bytes have a text.
pub fn spelling_spells()
    ensures { (bytes : List ℕ) → All (λ byte. byte < 256) bytes → Spells (spelling bytes) bytes }
{}

/// `reading` gives bytes exactly when the text spells them, and a fault exactly when that fault holds.
pub fn reading_is_decided()
    ensures spelled { (text bytes : List ℕ) → Spells text bytes ↔ (reading text ≡ Ok bytes) }
    ensures refused { (text : List ℕ) (fault : B32Fault) → fault ≢ NoMemory
        → (Refuses fault text ↔ (reading text ≡ Err fault)) }
{}
