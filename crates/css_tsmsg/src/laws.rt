//! What is proved of texts. Each law is the contract of a function that does nothing.

ghost use Rattle.std.specs.Prelude.{◌≡◌, Ok, ℕ, List};
ghost use Rattle.css_num.specs.declared.control.Control.{Control as control};
ghost use Rattle.css_tsmsg.specs.Controls.{IsInRange, control_text, control_of};
ghost use Rattle.css_tsmsg.specs.Faults.{NotMemory};
ghost use Rattle.css_tsmsg.specs.Presentations.{IsPresentation, presentation_text, presentation_of};
ghost use Rattle.css_tsmsg.specs.Setups.{IsUtf8Setup, setup_text, setup_of};
ghost use Rattle.css_tsmsg.specs.declared.bound.Presentation.{Presentation as presentation};
ghost use Rattle.css_tsmsg.specs.declared.setup.Setup.{Setup as setup};

/// What a control timestamp's text is to be read as is never want of memory.
pub fn controls_are_total()
    ensures { (bytes : List ℕ) → NotMemory (control_of bytes) }
{}

/// The text of a control timestamp, of a setup and of a presentation is read back as the same value.
pub fn texts_are_read_back()
    ensures controls { (c : control) → IsInRange c → control_of (control_text c) ≡ Ok c }
    ensures setups { (s : setup) → IsUtf8Setup s → setup_of (setup_text s) ≡ Ok s }
    ensures presentations { (p : presentation) → IsPresentation p → presentation_of (presentation_text p) ≡ Ok p }
{}
