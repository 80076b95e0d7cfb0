ghost use Rattle.std.specs.Prelude.{◌≡◌, ◌<◌, ◌++◌, ◌∷◌, [], OnOk, OnErr};
ghost use Rattle.std.specs.Vec.{vec_len, vec_capacity};

use css_companion::Report;
use css_num::{Memory, Text};

/// A report that a follower heard, and what it said of it.
#[derive(Drop)]
pub struct Note {
    pub report: Report,
    pub text: Text,
}

// Makes room for one more note.
fn make_room(notes: &mut Vec<Note>) -> Result<(), Memory>
    ensures items { notes.new.items ≡ notes.old.items }
    ensures ok { OnOk result (vec_len notes.new < vec_capacity notes.new) }
{
    notes.reserve(1)?;
    Ok(())
}

// Adds a note, where there is room for it.
fn put(notes: &mut Vec<Note>, report: Report, text: Text)
    requires { vec_len notes.old < vec_capacity notes.old }
    ensures { notes.new.items ≡ notes.old.items ++ record { report = report; text = text } ∷ [] }
{
    let _ = notes.push(Note { report, text });
}

/// Notes a report and what is said of it, and says it: both, or nothing of it.
pub fn take_note(
    notes: &mut Vec<Note>,
    out: &mut Text,
    report: Report,
    text: Text,
) -> Result<(), Memory>
    ensures notes { OnOk result (notes.new.items ≡
        notes.old.items ++ record { report = report; text = text } ∷ []) }
    ensures out { OnOk result (out.new ≡ out.old ++ text) }
    ensures notes_err { OnErr result (notes.new.items ≡ notes.old.items) }
    ensures out_err { OnErr result (out.new ≡ out.old) }
{
    make_room(notes)?;
    out.push(text.bytes())?;
    put(notes, report, text);
    Ok(())
}
