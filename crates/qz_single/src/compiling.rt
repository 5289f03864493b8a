//! The nets of a module: what it writes, and where its control goes.

ghost use Rattle.std.specs.Prelude.{◌≡◌, Bool, not, [], map, IsTrue, IfOk, OnOk};
ghost use Rattle.qz_values.specs.Knowledge.{opposite};
ghost use Rattle.qz_syntax.specs.declared.places.Mark.TheVariants as mark;
ghost use Rattle.qz_syntax.specs.declared.places.Residual.{Residual};
ghost use Rattle.qz_meaning.specs.Scenes.{root};
ghost use Rattle.qz_meaning.specs.Calls.{Answers};
ghost use Rattle.qz_control.specs.Leaves.{known_bit};
ghost use Rattle.qz_control.specs.Circuits.{View, Views, known, Grows, IsBool};
ghost use Rattle.qz_control.specs.Guarded.{chosen, when};
ghost use Rattle.qz_control.specs.Follows.{IsPlain};
ghost use Rattle.qz_control.specs.Ready.{is_ready};
ghost use Rattle.qz_control.specs.Shown.{hide, writes_in};
ghost use Rattle.qz_surface.specs.Written.{read_writes, AreWrites};
ghost use Rattle.qz_moves.specs.Appended.{read_spots, AreTests};
ghost use Rattle.qz_single.specs.Compiled.{walk_in, IsThere, IsAway, IsCompiled};

use crate::compiled::Compiled;
use crate::hidden::hide_all;
use qz_control::{Circuit, LeafKind};
use qz_depth::writes_of_resume;
use qz_moves::{NetSpot, spots_of_resume, spots_of_start};
use qz_nets::NetId;
use qz_surface::{NetWrite, writes_of_start};
use qz_syntax::{Mark, Module};
use std::alloc::{AllocError, Global};

/// What is compiled of a module. It is started where it isn't resumed: one leaf tells which.
///
/// # Errors
///
/// Want of memory alone.
pub fn compile(alloc: Global, m: &Module) -> Result<Compiled, AllocError>
    requires { IsTrue (is_ready m.now m.now.body) }
    ensures { IfOk result (λ c. IsCompiled m.now c) }
{
    let mut circuit = Circuit::new(alloc);
    let act = circuit.flag(LeafKind::Act)?;
    let starting = start_writes(alloc, &mut circuit, m, act)?;
    let resuming = writes_of_resume(alloc, &mut circuit, m, act)?;
    let entering = start_spots(alloc, &mut circuit, m, act)?;
    let moving = resume_spots(alloc, &mut circuit, m)?;
    Ok(Compiled {
        circuit,
        starting,
        resuming,
        entering,
        moving,
    })
}

/// The writes of a start, which don't happen where the module is resumed.
#[tactic(auto, using(qz_control::proofs::Growing::through))]
fn start_writes(
    alloc: Global,
    circuit: &mut Circuit,
    m: &Module,
    act: NetId,
) -> Result<Vec<NetWrite>, AllocError>
    requires ready { IsTrue (is_ready m.now m.now.body) }
    requires act { IsBool circuit.old act }
    ensures grows { OnOk result (Grows circuit.old circuit.new) }
    ensures typed { IfOk result (λ writes. AreWrites m.now circuit.new writes.items) }
    ensures writes { IfOk result (λ writes. (v : View) (answers : Answers) → Views v circuit.new →
        read_writes v writes.items
        ≡ map (hide (opposite (known v act))) (writes_in ((walk_in m.now v answers).start root (opposite (known v act)) mark.Zero))) }
{
    let start = circuit.not(act)?;
    let never = circuit.truth(false)?;
    let writes = writes_of_start(alloc, circuit, m, Mark::Zero, start)?;
    let hidden = hide_all(alloc, circuit, m, start, never, &writes)?;
    Ok(hidden)
}

/// The spots of a start, which aren't so where the module is resumed.
#[tactic(auto, using(qz_control::proofs::Growing::through))]
fn start_spots(
    alloc: Global,
    circuit: &mut Circuit,
    m: &Module,
    act: NetId,
) -> Result<Vec<NetSpot>, AllocError>
    requires ready { IsTrue (is_ready m.now m.now.body) }
    requires act { IsBool circuit.old act }
    ensures grows { OnOk result (Grows circuit.old circuit.new) }
    ensures tests { IfOk result (λ spots. AreTests circuit.new spots.items) }
    ensures spots { IfOk result (λ spots. (v : View) (answers : Answers) (resumed : Bool) →
        Views v circuit.new → IsPlain m.now v.leaves.scene → known v act ≡ known_bit resumed →
        chosen (read_spots v spots.items) ≡ when (not resumed) ((walk_in m.now v answers).rest root mark.Zero)) }
{
    let start = circuit.not(act)?;
    let never = circuit.truth(false)?;
    let spots = spots_of_start(alloc, circuit, m, Mark::Zero, start, never)?;
    Ok(spots)
}

/// The spots of a resume: a whole program is never kept where it is, and never left.
#[tactic(auto, using(qz_control::proofs::Growing::through))]
fn resume_spots(
    alloc: Global,
    circuit: &mut Circuit,
    m: &Module,
) -> Result<Vec<NetSpot>, AllocError>
    requires ready { IsTrue (is_ready m.now m.now.body) }
    ensures grows { OnOk result (Grows circuit.old circuit.new) }
    ensures tests { IfOk result (λ spots. AreTests circuit.new spots.items) }
    ensures spots { IfOk result (λ spots. (v : View) (answers : Answers) (r : Residual) →
        Views v circuit.new → IsPlain m.now v.leaves.scene → IsThere m.now v r →
        chosen (read_spots v spots.items) ≡ (walk_in m.now v answers).after root r) }
    ensures away { IfOk result (λ spots. (v : View) →
        Views v circuit.new → IsPlain m.now v.leaves.scene → IsAway m.now v → chosen (read_spots v spots.items) ≡ []) }
{
    let never = circuit.truth(false)?;
    let spots = spots_of_resume(alloc, circuit, m, never, never)?;
    Ok(spots)
}
