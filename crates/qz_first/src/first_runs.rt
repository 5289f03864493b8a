//! What programs of the first language do, by their bits.

ghost use Rattle.std.specs.Prelude.{ℕ, IsTrue, []};
ghost use Rattle.qz_syntax.specs.declared.statements.Stmt.{Stmt};
ghost use Rattle.qz_syntax.specs.declared.places.Residual.{Residual};
ghost use Rattle.qz_syntax.specs.declared.modules.Module.{Module};
ghost use Rattle.qz_syntax.specs.Numbers.{places_of};
ghost use Rattle.qz_meaning.specs.Scenes.{Passing};
ghost use Rattle.qz_meaning.specs.Residing.{walk, whole_layout};
ghost use Rattle.qz_meaning.specs.LayoutLaws.{AreDifferent};
ghost use Rattle.qz_meaning.specs.RunLaws.{IsAlwaysDefinite};
ghost use Rattle.qz_meaning.specs.Valuations.{resting_places};
ghost use Rattle.qz_first.specs.Mirror.{Control, mirror_of};
ghost use Rattle.qz_first.specs.FirstLanguage.{is_first, IsFirst};
ghost use Rattle.qz_first.specs.FirstWalk.{StartsAs};
ghost use Rattle.qz_first.specs.FirstResumes.{IsControl, ResumesAs, IsStill};
ghost use Rattle.qz_verilog.specs.declared.modules.VModule.{VModule};
ghost use Rattle.qz_verilog.specs.Validity.{IsValid};
ghost use Rattle.qz_first.specs.Implements.{Implements};
ghost use Rattle.qz_meaning.specs.Programs.{program_of};
ghost use Rattle.qz_first.specs.Does.{DoesProgram};

/// A start of a statement of the first language is as its bits say.
pub fn starts_as_its_bits()
    ensures { (outputs : ℕ) (s : Stmt) → IsTrue (is_first outputs s) → (step : Passing) →
        StartsAs (walk step s) (whole_layout s) (mirror_of s) }
{}

/// A statement of the first language, whose places are all different, is resumed as its bits say where
/// control rests in it.
pub fn resumes_as_its_bits()
    ensures { (outputs : ℕ) (s : Stmt) → IsTrue (is_first outputs s) → AreDifferent (places_of s)
        → (step : Passing) (control : Control) (r : Residual) → IsTrue ((whole_layout s).fits r)
        → IsControl control (places_of s) (resting_places r) →
        ResumesAs (walk step s) (whole_layout s) (mirror_of s) control r }
{}

/// Where control isn't in it, none of its bits is true.
pub fn is_still_where_control_is_away()
    ensures { (outputs : ℕ) (s : Stmt) → IsTrue (is_first outputs s) → AreDifferent (places_of s)
        → (control : Control) → IsControl control (places_of s) [] → IsStill (mirror_of s) control }
{}

/// A program of the first language is definite at every permitted valuation.
pub fn first_programs_are_definite()
    ensures { (m : Module) → IsFirst m → IsAlwaysDefinite (program_of m) }
{}

/// A Verilog module that implements a module of the first language is valid and does its program.
pub fn an_implementation_does_the_program()
    ensures does { (v : VModule) (m : Module) → IsFirst m → Implements v m → DoesProgram v m }
    ensures valid { (v : VModule) (m : Module) → IsFirst m → Implements v m → IsValid v }
{}
