//! What the nets tell of a statement in which control may rest.

ghost use Rattle.std.specs.Prelude.{◌≡◌, true, map, IsTrue, IfOk, OnOk, if◌then◌else◌};
ghost use Rattle.std.specs.List.{list_all};
ghost use Rattle.qz_values.specs.declared.Know.TheVariants.{Known};
ghost use Rattle.qz_values.specs.Values.{yes, no};
ghost use Rattle.qz_values.specs.Knowledge.{both, either, opposite, choose_of};
ghost use Rattle.qz_syntax.specs.declared.places.Mark.TheVariants as mark;
ghost use Rattle.qz_meaning.specs.Scenes.{with_locals};
ghost use Rattle.qz_meaning.specs.Expressions.{value_here};
ghost use Rattle.qz_meaning.specs.Sequences.{ends_of_all};
ghost use Rattle.qz_meaning.specs.Suspends.{ends_on_start};
ghost use Rattle.qz_control.specs.Leaves.{known_bit};
ghost use Rattle.qz_control.specs.Circuits.{known, Means, Grows, IsBool};
ghost use Rattle.qz_control.specs.Contexts.{context_of};
ghost use Rattle.qz_control.specs.Guarded.{where_inside};
ghost use Rattle.qz_control.specs.Mirrors.{walks, any_inside};
ghost use Rattle.qz_control.specs.MemberMirrors.{ended_all, ended_each};
ghost use Rattle.qz_control.specs.Mirror.{mirror_of};
ghost use Rattle.qz_control.specs.Ready.{is_test, is_ready};
ghost use Rattle.qz_terms.specs.Told.{AreBools};

use crate::members::member;
use crate::told::{
    Terms, at_once, in_turn, none_inside, of_abort, of_choice, of_held, of_loop, of_pause,
    of_suspend, passing, where_so,
};
use qz_control::{Circuit, LeafKind, Marks, test};
use qz_syntax::{Expr, Kind, Mark, Module, Stmt};
use std::alloc::{AllocError, Global};

/// Whether control rests in a statement, whether a resume then ends, and whether a start with mark zero
/// ends in the same step. Locals of scopes round it have the instances of a resume, with mark zero.
///
/// # Errors
///
/// Want of memory alone.
#[cycle(terms)]
pub fn terms_of(
    alloc: Global,
    circuit: &mut Circuit,
    owner: &Module,
    marks: &mut Marks,
    s: &Stmt,
) -> Result<Terms, AllocError>
    requires ready { IsTrue (is_ready owner.now s.now) }
    ensures grows { OnOk result (Grows circuit.old circuit.new) }
    ensures marks { OnOk result (context_of marks.new ≡ context_of marks.old) }
    ensures ty { IfOk result (λ terms. AreBools circuit.new terms) }
    ensures inside { IfOk result (λ terms. Means circuit.new terms.inside
        (λ v. (mirror_of v.leaves.scene s.now).inside v.leaves.at)) }
    ensures ended { IfOk result (λ terms. Means circuit.new terms.ended
        (λ v. (mirror_of v.leaves.scene s.now).ended (context_of marks.old) v.leaves.at)) }
    ensures ends { IfOk result (λ terms. Means circuit.new terms.ends
        (λ v. (mirror_of v.leaves.scene s.now).walk.ends (context_of marks.old) mark.Zero)) }
{
    match s {
        Stmt::Pause(place) => of_pause(circuit, *place),
        Stmt::Seq(parts) => terms_in_turn(alloc, circuit, owner, marks, parts.as_slice()),
        Stmt::Par(parts) => terms_at_once(alloc, circuit, owner, marks, parts.as_slice()),
        Stmt::If(condition, first, second) => {
            let c = test(circuit, owner, marks, condition)?;
            let one = terms_of(alloc, circuit, owner, marks, first.get())?;
            let other = terms_of(alloc, circuit, owner, marks, second.get())?;
            let told = of_choice(circuit, c, one, other)?;
            Ok(told)
        }
        Stmt::Loop(_, body, condition) => terms_of_loop(
            alloc,
            circuit,
            owner,
            marks,
            body.get(),
            condition,
        ),
        Stmt::Abort(kind, body, condition) => terms_of_abort(
            alloc,
            circuit,
            owner,
            marks,
            *kind,
            body.get(),
            condition,
        ),
        Stmt::Suspend(kind, None, body, condition) => terms_of_suspend(
            alloc,
            circuit,
            owner,
            marks,
            *kind,
            body.get(),
            condition,
        ),
        Stmt::Suspend(kind, Some(hold), body, condition) => terms_of_held(
            alloc,
            circuit,
            owner,
            marks,
            *kind,
            *hold,
            body.get(),
            condition,
        ),
        Stmt::Scope(locals, body) => terms_of_scope(
            alloc,
            circuit,
            owner,
            marks,
            body.get(),
            locals.as_slice(),
        ),
        Stmt::Nothing | Stmt::Assign(..) | Stmt::Delayed(..) | Stmt::Call(..) | Stmt::Bind(..) =>
            passing(circuit),
    }
}

/// Of members one after the other.
#[cycle(terms)]
fn terms_in_turn(
    alloc: Global,
    circuit: &mut Circuit,
    owner: &Module,
    marks: &mut Marks,
    parts: &[Stmt],
) -> Result<Terms, AllocError>
    requires ready { IsTrue (list_all (λ part. part) (map (is_ready owner.now) parts.now)) }
    ensures grows { OnOk result (Grows circuit.old circuit.new) }
    ensures marks { OnOk result (context_of marks.new ≡ context_of marks.old) }
    ensures ty { IfOk result (λ terms. AreBools circuit.new terms) }
    ensures inside { IfOk result (λ terms. Means circuit.new terms.inside
        (λ v. any_inside (map (mirror_of v.leaves.scene) parts.now) v.leaves.at (Known no))) }
    ensures ended { IfOk result (λ terms. Means circuit.new terms.ended
        (λ v. ended_all (context_of marks.old) (map (mirror_of v.leaves.scene) parts.now) v.leaves.at (Known no) (Known no))) }
    ensures ends { IfOk result (λ terms. Means circuit.new terms.ends
        (λ v. ends_of_all (context_of marks.old) (walks (map (mirror_of v.leaves.scene) parts.now)) (Known yes) mark.Zero)) }
{
    let mut so_far = passing(circuit)?;
    for index in 0..parts.len() {
        let part = member(owner, parts, index);
        let told = terms_of(alloc, circuit, owner, marks, part)?;
        so_far = in_turn(circuit, so_far, told)?;
    }
    Ok(so_far)
}

/// Of members all at once.
#[cycle(terms)]
fn terms_at_once(
    alloc: Global,
    circuit: &mut Circuit,
    owner: &Module,
    marks: &mut Marks,
    parts: &[Stmt],
) -> Result<Terms, AllocError>
    requires ready { IsTrue (list_all (λ part. part) (map (is_ready owner.now) parts.now)) }
    ensures grows { OnOk result (Grows circuit.old circuit.new) }
    ensures marks { OnOk result (context_of marks.new ≡ context_of marks.old) }
    ensures ty { IfOk result (λ terms. AreBools circuit.new terms) }
    ensures inside { IfOk result (λ terms. Means circuit.new terms.inside
        (λ v. any_inside (map (mirror_of v.leaves.scene) parts.now) v.leaves.at (Known no))) }
    ensures ended { IfOk result (λ terms. Means circuit.new terms.ended
        (λ v. where_inside (any_inside (map (mirror_of v.leaves.scene) parts.now) v.leaves.at (Known no))
        (ended_each (context_of marks.old) (map (mirror_of v.leaves.scene) parts.now) v.leaves.at (Known yes)))) }
    ensures ends { IfOk result (λ terms. Means circuit.new terms.ends
        (λ v. ends_of_all (context_of marks.old) (walks (map (mirror_of v.leaves.scene) parts.now)) (Known yes) mark.Zero)) }
{
    let all = terms_of_each(alloc, circuit, owner, marks, parts)?;
    let ended = where_so(circuit, all.inside, all.ended)?;
    Ok(Terms {
        inside: all.inside,
        ended,
        ends: all.ends,
    })
}

/// Of members all at once, which count as ended where control rests in none.
#[cycle(terms)]
fn terms_of_each(
    alloc: Global,
    circuit: &mut Circuit,
    owner: &Module,
    marks: &mut Marks,
    parts: &[Stmt],
) -> Result<Terms, AllocError>
    requires ready { IsTrue (list_all (λ part. part) (map (is_ready owner.now) parts.now)) }
    ensures grows { OnOk result (Grows circuit.old circuit.new) }
    ensures marks { OnOk result (context_of marks.new ≡ context_of marks.old) }
    ensures ty { IfOk result (λ terms. AreBools circuit.new terms) }
    ensures inside { IfOk result (λ terms. Means circuit.new terms.inside
        (λ v. any_inside (map (mirror_of v.leaves.scene) parts.now) v.leaves.at (Known no))) }
    ensures ended { IfOk result (λ terms. Means circuit.new terms.ended
        (λ v. ended_each (context_of marks.old) (map (mirror_of v.leaves.scene) parts.now) v.leaves.at (Known yes))) }
    ensures ends { IfOk result (λ terms. Means circuit.new terms.ends
        (λ v. ends_of_all (context_of marks.old) (walks (map (mirror_of v.leaves.scene) parts.now)) (Known yes) mark.Zero)) }
{
    let mut so_far = none_inside(circuit)?;
    for index in 0..parts.len() {
        let part = member(owner, parts, index);
        let told = terms_of(alloc, circuit, owner, marks, part)?;
        so_far = at_once(circuit, so_far, told)?;
    }
    Ok(so_far)
}

/// Of a loop with this body.
#[cycle(terms)]
fn terms_of_loop(
    alloc: Global,
    circuit: &mut Circuit,
    owner: &Module,
    marks: &mut Marks,
    body: &Stmt,
    condition: &Expr,
) -> Result<Terms, AllocError>
    requires condition { IsTrue (is_test owner.now condition.now) }
    requires ready { IsTrue (is_ready owner.now body.now) }
    ensures grows { OnOk result (Grows circuit.old circuit.new) }
    ensures marks { OnOk result (context_of marks.new ≡ context_of marks.old) }
    ensures ty { IfOk result (λ terms. AreBools circuit.new terms) }
    ensures inside { IfOk result (λ terms. Means circuit.new terms.inside
        (λ v. (mirror_of v.leaves.scene body.now).inside v.leaves.at)) }
    ensures ended { IfOk result (λ terms. Means circuit.new terms.ended (λ v.
        where_inside ((mirror_of v.leaves.scene body.now).inside v.leaves.at)
        (both ((mirror_of v.leaves.scene body.now).ended (context_of marks.old) v.leaves.at)
        (opposite (value_here v.leaves.scene (context_of marks.old) condition.now))))) }
    ensures ends { IfOk result (λ terms. Means circuit.new terms.ends (λ v. Known no)) }
{
    let c = test(circuit, owner, marks, condition)?;
    let told = terms_of(alloc, circuit, owner, marks, body)?;
    let terms = of_loop(circuit, c, told)?;
    Ok(terms)
}

/// Of an abort with this body.
#[cycle(terms)]
fn terms_of_abort(
    alloc: Global,
    circuit: &mut Circuit,
    owner: &Module,
    marks: &mut Marks,
    kind: Kind,
    body: &Stmt,
    condition: &Expr,
) -> Result<Terms, AllocError>
    requires condition { IsTrue (is_test owner.now condition.now) }
    requires ready { IsTrue (is_ready owner.now body.now) }
    ensures grows { OnOk result (Grows circuit.old circuit.new) }
    ensures marks { OnOk result (context_of marks.new ≡ context_of marks.old) }
    ensures ty { IfOk result (λ terms. AreBools circuit.new terms) }
    ensures inside { IfOk result (λ terms. Means circuit.new terms.inside
        (λ v. (mirror_of v.leaves.scene body.now).inside v.leaves.at)) }
    ensures ended { IfOk result (λ terms. Means circuit.new terms.ended (λ v.
        where_inside ((mirror_of v.leaves.scene body.now).inside v.leaves.at)
        (either (value_here v.leaves.scene (context_of marks.old) condition.now)
        ((mirror_of v.leaves.scene body.now).ended (context_of marks.old) v.leaves.at)))) }
    ensures ends { IfOk result (λ terms. Means circuit.new terms.ends (λ v.
        if kind.immediate then either (value_here v.leaves.scene (context_of marks.old) condition.now)
        ((mirror_of v.leaves.scene body.now).walk.ends (context_of marks.old) mark.Zero)
        else (mirror_of v.leaves.scene body.now).walk.ends (context_of marks.old) mark.Zero)) }
{
    let c = test(circuit, owner, marks, condition)?;
    let told = terms_of(alloc, circuit, owner, marks, body)?;
    let terms = of_abort(circuit, kind, c, told)?;
    Ok(terms)
}

/// Of a suspend with this body and no hold place.
#[cycle(terms)]
fn terms_of_suspend(
    alloc: Global,
    circuit: &mut Circuit,
    owner: &Module,
    marks: &mut Marks,
    kind: Kind,
    body: &Stmt,
    condition: &Expr,
) -> Result<Terms, AllocError>
    requires condition { IsTrue (is_test owner.now condition.now) }
    requires ready { IsTrue (is_ready owner.now body.now) }
    ensures grows { OnOk result (Grows circuit.old circuit.new) }
    ensures marks { OnOk result (context_of marks.new ≡ context_of marks.old) }
    ensures ty { IfOk result (λ terms. AreBools circuit.new terms) }
    ensures inside { IfOk result (λ terms. Means circuit.new terms.inside
        (λ v. (mirror_of v.leaves.scene body.now).inside v.leaves.at)) }
    ensures ended { IfOk result (λ terms. Means circuit.new terms.ended (λ v.
        where_inside ((mirror_of v.leaves.scene body.now).inside v.leaves.at)
        (both (opposite (value_here v.leaves.scene (context_of marks.old) condition.now))
        ((mirror_of v.leaves.scene body.now).ended (context_of marks.old) v.leaves.at)))) }
    ensures ends { IfOk result (λ terms. Means circuit.new terms.ends
        (λ v. ends_on_start v.leaves.scene kind (mirror_of v.leaves.scene body.now).walk condition.now (context_of marks.old) mark.Zero)) }
{
    let c = test(circuit, owner, marks, condition)?;
    let told = terms_of(alloc, circuit, owner, marks, body)?;
    let terms = of_suspend(circuit, kind, c, told)?;
    Ok(terms)
}

/// Of an immediate suspend with this body and hold place.
#[cycle(terms)]
fn terms_of_held(
    alloc: Global,
    circuit: &mut Circuit,
    owner: &Module,
    marks: &mut Marks,
    kind: Kind,
    hold: u32,
    body: &Stmt,
    condition: &Expr,
) -> Result<Terms, AllocError>
    requires condition { IsTrue (is_test owner.now condition.now) }
    requires ready { IsTrue (is_ready owner.now body.now) }
    ensures grows { OnOk result (Grows circuit.old circuit.new) }
    ensures marks { OnOk result (context_of marks.new ≡ context_of marks.old) }
    ensures ty { IfOk result (λ terms. AreBools circuit.new terms) }
    ensures inside { IfOk result (λ terms. Means circuit.new terms.inside
        (λ v. either (known_bit (v.leaves.at.place hold)) ((mirror_of v.leaves.scene body.now).inside v.leaves.at))) }
    ensures ended { IfOk result (λ terms. Means circuit.new terms.ended (λ v.
        choose_of (known_bit (v.leaves.at.place hold))
        (both (opposite (value_here v.leaves.scene (context_of marks.old) condition.now))
        ((mirror_of v.leaves.scene body.now).walk.ends (context_of marks.old) mark.Zero))
        (where_inside ((mirror_of v.leaves.scene body.now).inside v.leaves.at)
        (both (opposite (value_here v.leaves.scene (context_of marks.old) condition.now))
        ((mirror_of v.leaves.scene body.now).ended (context_of marks.old) v.leaves.at))))) }
    ensures ends { IfOk result (λ terms. Means circuit.new terms.ends
        (λ v. ends_on_start v.leaves.scene kind (mirror_of v.leaves.scene body.now).walk condition.now (context_of marks.old) mark.Zero)) }
{
    let c = test(circuit, owner, marks, condition)?;
    let told = terms_of(alloc, circuit, owner, marks, body)?;
    let held = circuit.flag(LeafKind::At(hold))?;
    let terms = of_held(circuit, kind, c, held, told)?;
    Ok(terms)
}

/// Of a scope with this body, whose locals have the instances that are kept.
#[cycle(terms)]
fn terms_of_scope(
    alloc: Global,
    circuit: &mut Circuit,
    owner: &Module,
    marks: &mut Marks,
    body: &Stmt,
    locals: &[u32],
) -> Result<Terms, AllocError>
    requires ready { IsTrue (is_ready owner.now body.now) }
    ensures grows { OnOk result (Grows circuit.old circuit.new) }
    ensures marks { OnOk result (context_of marks.new ≡ context_of marks.old) }
    ensures ty { IfOk result (λ terms. AreBools circuit.new terms) }
    ensures inside { IfOk result (λ terms. Means circuit.new terms.inside
        (λ v. (mirror_of v.leaves.scene body.now).inside v.leaves.at)) }
    ensures ended { IfOk result (λ terms. Means circuit.new terms.ended
        (λ v. (mirror_of v.leaves.scene body.now).ended (with_locals (context_of marks.old) locals.now mark.Zero) v.leaves.at)) }
    ensures ends { IfOk result (λ terms. Means circuit.new terms.ends
        (λ v. (mirror_of v.leaves.scene body.now).walk.ends (with_locals (context_of marks.old) locals.now mark.Zero) mark.Zero)) }
{
    let covered = marks.enter(alloc, locals, Mark::Zero)?;
    let told = terms_of(alloc, circuit, owner, marks, body)?;
    marks.leave(covered)?;
    Ok(told)
}
