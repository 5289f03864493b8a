//! Laws of texts that are read line by line. Each call does nothing: its clauses hold of all modules
//! and drafts.

ghost use Rattle.std.specs.Prelude.{◌≡◌, ◌++◌, ◌∷◌, [], ◌<◌, ◌^◌, ◌+◌, ℕ, false, true, List, length, Some};
ghost use Rattle.std.specs.Str.{all_scalars};
ghost use Rattle.qz_verilog.specs.declared.modules.VModule.{VModule};
ghost use Rattle.qz_verilog.specs.Validity.{port_names};
ghost use Rattle.qz_vread.specs.declared.drafts.Draft.{Draft};
ghost use Rattle.qz_vread.specs.Parts.{lacks};
ghost use Rattle.qz_vtext.specs.Names.{name_text};
ghost use Rattle.qz_vtext.specs.Text.{lines_of, IsTextOf};
ghost use Rattle.qz_vread.specs.Refusals.{IsModule, IsRefused};
ghost use Rattle.qz_vread.specs.Unspelling.{unspelled};
ghost use Rattle.qz_vread.specs.Drafts.{IsStep, Takes};
ghost use Rattle.qz_vread.specs.Drafted.{IsSound, written, nothing_read, module_of};
ghost use Rattle.qz_vread.specs.declared.drafts.Stage.{Stage};
ghost use Rattle.qz_vread.specs.declared.drafts.Stage.TheVariants as stage;
ghost use Rattle.qz_vread.specs.Leading.{Path, Reached, Finish, IsReading};

/// The lines of a module's text take nothing that was read, line by line, to the module.
pub(crate) fn lines_lead_to_their_module()
    ensures { (m : VModule) → IsModule m → Path nothing_read (lines_of m) m }
{}

/// A line that can come next is the last of what was then read.
pub(crate) fn a_step_writes_its_line()
    ensures { (d new : Draft) (line : List ℕ) → IsSound d → IsStep d line new → written new ≡ written d ++ line ∷ [] }
{}

/// A line that can come next keeps a draft sound.
pub(crate) fn a_step_keeps_a_draft_sound()
    ensures { (d new : Draft) (line : List ℕ) → IsSound d → IsStep d line new → IsSound new }
{}

/// Where lines take a sound draft to a module, its text has what was read and then those lines.
pub(crate) fn lines_end_in_their_module()
    ensures { (d : Draft) (lines : List (List ℕ)) (m : VModule) → IsSound d → Path d lines m → Reached d lines m }
{}

/// What was read of a text is what some module's text begins with: names are left for another port.
pub(crate) fn a_sound_draft_can_be_finished()
    ensures { (d : Draft) → IsSound d → length (port_names (d.ports.inputs ++ d.ports.outputs)) < 2 ^ 27 → Finish d }
{}

/// All bytes are read from nothing on.
pub(crate) fn bytes_are_read_from_nothing_on()
    ensures { (bytes : List ℕ) → IsReading bytes nothing_read bytes }
{}

/// Where a line was taken just where it can come next, reading goes on after it.
pub(crate) fn reading_goes_on_after_a_line()
    ensures { (bytes : List ℕ) (d new : Draft) (line later : List ℕ) → IsReading bytes d (line ++ 10 ∷ later) → lacks 10 line ≡ true →
        Takes (IsStep d line) new true → IsReading bytes new later }
{}

/// Where a line can't come next, it is the first that no module's text has there.
pub(crate) fn a_line_that_cannot_come_next_is_at_fault()
    ensures { (bytes : List ℕ) (d new : Draft) (line later : List ℕ) → IsReading bytes d (line ++ 10 ∷ later) → lacks 10 line ≡ true →
        Takes (IsStep d line) new false → length (port_names (d.ports.inputs ++ d.ports.outputs)) < 2 ^ 27 →
        IsRefused bytes (length (written d) + 1) }
{}

/// Bytes at the end that no line feed ends are at fault.
pub(crate) fn a_line_without_its_line_feed_is_at_fault()
    ensures { (bytes : List ℕ) (d : Draft) (byte : ℕ) (rest : List ℕ) → IsReading bytes d (byte ∷ rest) → lacks 10 (byte ∷ rest) ≡ true →
        length (port_names (d.ports.inputs ++ d.ports.outputs)) < 2 ^ 27 → IsRefused bytes (length (written d) + 1) }
{}

/// Where the last line of a module isn't there, the line after all lines is at fault.
pub(crate) fn a_text_that_ends_early_is_at_fault()
    ensures { (bytes : List ℕ) (d : Draft) → IsReading bytes d [] → (d.stage ≡ stage.Nothing → ⊥) →
        length (port_names (d.ports.inputs ++ d.ports.outputs)) < 2 ^ 27 → IsRefused bytes (length (written d) + 1) }
{}

/// Where all bytes were read and the last line with them, they are the module's text.
pub(crate) fn a_text_that_was_read_is_its_modules()
    ensures is_module { (bytes : List ℕ) (d : Draft) → IsReading bytes d [] → d.stage ≡ stage.Nothing → IsModule (module_of d) }
    ensures text { (bytes : List ℕ) (d : Draft) → IsReading bytes d [] → d.stage ≡ stage.Nothing → IsTextOf (module_of d) bytes }
{}

/// A name that is spelled is read as it was.
pub(crate) fn a_spelled_name_is_read()
    ensures { (name : List ℕ) → all_scalars name ≡ true → unspelled (name_text name) ≡ Some name }
{}
