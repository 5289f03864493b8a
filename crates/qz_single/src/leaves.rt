//! What the leaves of a module's nets stand for in a system.

ghost use Rattle.std.specs.Prelude.{◌≡◌, map, IfOk};
ghost use Rattle.qz_syntax.specs.declared.modules.Module.{Module as OfTree};
ghost use Rattle.qz_single.specs.Numbering.{leaf_of};
ghost use Rattle.qz_single.specs.Numbered.{IsNumbering};

use crate::numbering::Numbering;
use qz_control::LeafKind;
use qz_system::SystemLeaf;
use sqlite_items::Items;
use std::alloc::{AllocError, Global};

/// What each of these leaves stands for.
pub(crate) fn leaves_of(
    alloc: Global,
    numbering: &Numbering,
    kinds: &[LeafKind],
) -> Result<Items<SystemLeaf>, AllocError>
    ensures { IfOk result (λ leaves. (m : OfTree) → IsNumbering m numbering.now → leaves ≡ map (leaf_of m) kinds.now) }
{
    let mut leaves = Items::new(alloc);
    for kind in kinds {
        leaves.push(numbering.leaf(*kind))?;
    }
    Ok(leaves)
}
