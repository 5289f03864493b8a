//! What the nets of a statement say of its walk. Each call does nothing: its clause holds of every
//! statement.

ghost use Rattle.std.specs.Prelude.{◌≡◌, Bool, true};
ghost use Rattle.qz_values.specs.declared.Know.{Know};
ghost use Rattle.qz_values.specs.declared.Know.TheVariants.{Known};
ghost use Rattle.qz_values.specs.Values.{no};
ghost use Rattle.qz_syntax.specs.declared.places.Residual.{Residual};
ghost use Rattle.qz_meaning.specs.Instances.{Instance};
ghost use Rattle.qz_meaning.specs.Layouts.{PlaceBits};
ghost use Rattle.qz_meaning.specs.Verdicts.{verdict};
ghost use Rattle.qz_syntax.specs.declared.modules.Module.{Module};
ghost use Rattle.qz_syntax.specs.declared.statements.Stmt.{Stmt};
ghost use Rattle.qz_meaning.specs.Calls.{Answers, open_layout};
ghost use Rattle.qz_meaning.specs.Scenes.{Scene, Context};
ghost use Rattle.qz_meaning.specs.Walks.{layout};
ghost use Rattle.qz_meaning.specs.Landings.{open_walk};
ghost use Rattle.qz_control.specs.Mirror.{mirror_of};
ghost use Rattle.qz_control.specs.Ready.{is_ready};
ghost use Rattle.qz_control.specs.Follows.{IsPlain, RestsAt, Resuming, Follows};
ghost use Rattle.qz_control.specs.Shown.{writes_in, shown, AreFalse};

/// The walk that the nets mirror is the open walk, whatever calls answer.
pub fn mirrors_walk_as_the_statement()
    ensures { (m : Module) (scene : Scene) (answers : Answers) (s : Stmt) → is_ready m s ≡ true →
        (mirror_of scene s).walk ≡ open_walk scene answers s }
{}

/// A statement is resumed as its nets say, for all knowledge.
pub fn nets_resume_the_statement()
    ensures { (m : Module) (scene : Scene) (s : Stmt) → is_ready m s ≡ true →
        Resuming (mirror_of scene s) (layout open_layout s) }
{}

/// Where control rests after a start and after a resume is as the nets say, where every condition is
/// plain.
pub fn nets_follow_the_statement()
    ensures { (m : Module) (scene : Scene) (s : Stmt) → IsPlain m scene → is_ready m s ≡ true →
        Follows (mirror_of scene s) (layout open_layout s) }
{}

/// The writes that the nets show in a place have the verdicts of the resume's, for all knowledge and
/// whatever calls answer.
pub fn nets_show_the_resume()
    ensures { (m : Module) (scene : Scene) (answers : Answers) (s : Stmt) → is_ready m s ≡ true →
        (b : PlaceBits) (r : Residual) → RestsAt (layout open_layout s) b r →
        (ctx : Context) (act : Know) (i : Instance) (delayed : Bool) →
        verdict i delayed (shown ((mirror_of scene s).run ctx b act (Known no) (Known no)))
        ≡ verdict i delayed (writes_in ((open_walk scene answers s).resume ctx r act)) }
{}

/// Where control isn't inside, each guard that the nets of a resume show is known to be false, for all
/// knowledge.
pub fn nets_show_nothing_where_control_is_away()
    ensures { (m : Module) (scene : Scene) (s : Stmt) → is_ready m s ≡ true →
        (b : PlaceBits) → (layout open_layout s).away b ≡ true → (ctx : Context) (act : Know) →
        AreFalse (shown ((mirror_of scene s).run ctx b act (Known no) (Known no))) }
{}
