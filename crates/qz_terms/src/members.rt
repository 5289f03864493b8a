//! Members of statements.

ghost use Rattle.std.specs.Prelude.{◌≡◌, ◌<◌, map, length, get_or, IsTrue};
ghost use Rattle.std.specs.List.{list_all};
ghost use Rattle.qz_control.specs.Ready.{is_ready};

use qz_syntax::{Module, Stmt};

/// A member of statements that can all be compiled, which can be compiled.
#[tactic(auto, using(qz_control::proofs::Members::member_ready))]
pub fn member<'s>(owner: &Module, parts: &'s [Stmt], index: usize) -> &'s Stmt
    requires within { index < length parts.now }
    requires ready { IsTrue (list_all (λ part. part) (map (is_ready owner.now) parts.now)) }
    ensures within { index < length parts.now }
    ensures is { result.now ≡ get_or parts.now index result.now }
    ensures ready { IsTrue (is_ready owner.now result.now) }
{
    &parts[index]
}
