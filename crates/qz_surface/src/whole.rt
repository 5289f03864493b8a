//! What the start of a module's body does.

ghost use Rattle.std.specs.Prelude.{◌≡◌, true, IsTrue, IfOk, OnOk};
ghost use Rattle.qz_meaning.specs.Scenes.{root};
ghost use Rattle.qz_meaning.specs.Calls.{Answers};
ghost use Rattle.qz_meaning.specs.Landings.{open_walk};
ghost use Rattle.qz_control.specs.Circuits.{View, Views, known, Grows, IsBool};
ghost use Rattle.qz_control.specs.Shown.{writes_in};
ghost use Rattle.qz_control.specs.Ready.{is_ready};
ghost use Rattle.qz_surface.specs.Written.{read_writes, AreWrites};

use crate::starting::surface;
use crate::writes::NetWrite;
use qz_control::{Circuit, Marks};
use qz_nets::NetId;
use qz_syntax::{Mark, Module};
use std::alloc::{AllocError, Global};

/// The writes of a start of the body with a mark and a guard: those of the walk, for all knowledge and
/// whatever calls answer.
///
/// # Errors
///
/// Want of memory alone.
pub fn writes_of_start(
    alloc: Global,
    circuit: &mut Circuit,
    owner: &Module,
    m: Mark,
    start: NetId,
) -> Result<Vec<NetWrite>, AllocError>
    requires ready { IsTrue (is_ready owner.now owner.now.body) }
    requires start { IsBool circuit.old start }
    ensures grows { OnOk result (Grows circuit.old circuit.new) }
    ensures typed { IfOk result (λ writes. AreWrites owner.now circuit.new writes.items) }
    ensures writes { IfOk result (λ writes. (v : View) (answers : Answers) → Views v circuit.new →
        read_writes v writes.items ≡ writes_in ((open_walk v.leaves.scene answers owner.now.body).start root (known v start) m)) }
{
    let mut marks = Marks::at_root(alloc);
    let mut writes = Vec::new(alloc);
    let live = circuit.truth(true)?;
    surface(
        alloc,
        circuit,
        owner,
        &mut marks,
        &mut writes,
        &owner.body,
        m,
        start,
        live,
    )?;
    Ok(writes)
}
