//! Laws about what is told.
ghost use Rattle.std.specs.Prelude.{◌≡◌, ◌++◌, ℕ, List};
ghost use Rattle.caps.specs.CapTexts.{cap_text};
ghost use Rattle.caps.specs.declared.cap.Cap.{Cap};
ghost use Rattle.client_tasks.specs.Lines.{HasNoMark};

/// In a text without the mark of caps no cap's text stands, of none of the six kinds.
pub fn caps_have_the_mark()
    ensures { (cap : Cap) (text before after : List ℕ) → HasNoMark text →
        ¬ (text ≡ before ++ (cap_text cap ++ after)) }
{}
