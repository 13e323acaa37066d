//! What holds of caps and their texts.
ghost use Rattle.std.specs.Prelude.{◌≡◌, ◌≢◌, ◌↔◌, ℕ, List, Ok, Err, Some};
ghost use Rattle.caps.specs.CapTexts.{IsCapText, IsCap, cap_text};
ghost use Rattle.caps.specs.Refusals.{RefusesCap};
ghost use Rattle.caps.specs.Reading.{cap_reading};
ghost use Rattle.caps.specs.Weakening.{weakened, cap_of};
ghost use Rattle.caps.specs.declared.cap.Cap.{Cap};
ghost use Rattle.caps.specs.declared.cap.VerifyCap.{VerifyCap};
ghost use Rattle.caps.specs.declared.fault.CapFault.{CapFault};
ghost use Rattle.caps.specs.declared.fault.CapFault.TheVariants.{NoMemory};

/// A cap has one text, which `cap_text` gives.
pub fn caps_have_one_text()
    ensures some { (cap : Cap) → IsCap cap → IsCapText cap (cap_text cap) }
    ensures one { (cap : Cap) (text : List ℕ) → IsCapText cap text → text ≡ cap_text cap }
{}

/// A text is one cap's at most.
pub fn texts_have_one_cap()
    ensures { (text : List ℕ) (cap other : Cap) → IsCapText cap text → IsCapText other text
        → cap ≡ other }
{}

/// `cap_reading` gives a cap exactly when the text is its text, and a fault exactly when that fault holds. It answers no
/// want of memory.
pub fn reading_is_decided()
    ensures read { (text : List ℕ) (cap : Cap) → IsCapText cap text ↔ (cap_reading text ≡ Ok cap) }
    ensures refused { (text : List ℕ) (fault : CapFault) → fault ≢ NoMemory
        → (RefusesCap fault text ↔ (cap_reading text ≡ Err fault)) }
    ensures total { (text : List ℕ) → cap_reading text ≢ Err NoMemory }
{}

/// A verify cap is its own verify cap, and what a cap is weakened to is a verify cap.
pub fn verify_caps_are_their_own()
    ensures { (verify : VerifyCap) → weakened (cap_of verify) ≡ Some verify }
{}
