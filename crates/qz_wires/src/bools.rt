//! The operators on rails of bools that one operand alone may decide.

ghost use Rattle.std.specs.Prelude.{◌≡◌, IfOk, OnOk};
ghost use Rattle.qz_values.specs.declared.Ty.TheVariants.{Bool as Truth};
ghost use Rattle.qz_values.specs.declared.Know.{Know};
ghost use Rattle.qz_values.specs.declared.Op2.TheVariants as op2;
ghost use Rattle.qz_values.specs.Knowledge.{apply2_of};
ghost use Rattle.qz_values.specs.Fits.{HasType};
ghost use Rattle.qz_verilog.specs.Meaning.{Nets};
ghost use Rattle.qz_wires.specs.WireTable.{types_in, Reads, Extends};
ghost use Rattle.qz_wires.specs.Rails.{Shows, IsRail};

use crate::rails::Rail;
use crate::wires::Wires;
use qz_values::Ty;
use std::alloc::AllocError;

/// `&` of bools
pub(crate) fn and(wires: &mut Wires, a: Rail, b: Rail) -> Result<Rail, AllocError>
    requires a { IsRail (types_in wires.old) Truth a }
    requires b { IsRail (types_in wires.old) Truth b }
    ensures extends { OnOk result (Extends wires.old wires.new) }
    ensures rail { IfOk result (λ r. IsRail (types_in wires.new) Truth r) }
    ensures means { IfOk result (λ r. (nets : Nets) → Reads nets wires.new → (p q : Know) → HasType Truth p → HasType Truth q →
        Shows nets a p → Shows nets b q → Shows nets r (apply2_of op2.And p q)) }
{
    let off = wires.not(b.value)?;
    let right = wires.and(b.known, off)?;
    let always = wires.flag(true)?;
    let left = wires.select(a.value, b.known, always)?;
    let known = wires.select(a.known, left, right)?;
    let never = wires.flag(false)?;
    let value = wires.choose(Ty::Bool, a.value, b.value, never)?;
    Ok(Rail { known, value })
}

/// `|` of bools
pub(crate) fn or(wires: &mut Wires, a: Rail, b: Rail) -> Result<Rail, AllocError>
    requires a { IsRail (types_in wires.old) Truth a }
    requires b { IsRail (types_in wires.old) Truth b }
    ensures extends { OnOk result (Extends wires.old wires.new) }
    ensures rail { IfOk result (λ r. IsRail (types_in wires.new) Truth r) }
    ensures means { IfOk result (λ r. (nets : Nets) → Reads nets wires.new → (p q : Know) → HasType Truth p → HasType Truth q →
        Shows nets a p → Shows nets b q → Shows nets r (apply2_of op2.Or p q)) }
{
    let right = wires.and(b.known, b.value)?;
    let left = wires.or(a.value, b.known)?;
    let known = wires.select(a.known, left, right)?;
    let always = wires.flag(true)?;
    let value = wires.choose(Ty::Bool, a.value, always, b.value)?;
    Ok(Rail { known, value })
}

/// `->` of bools
pub(crate) fn implies(wires: &mut Wires, a: Rail, b: Rail) -> Result<Rail, AllocError>
    requires a { IsRail (types_in wires.old) Truth a }
    requires b { IsRail (types_in wires.old) Truth b }
    ensures extends { OnOk result (Extends wires.old wires.new) }
    ensures rail { IfOk result (λ r. IsRail (types_in wires.new) Truth r) }
    ensures means { IfOk result (λ r. (nets : Nets) → Reads nets wires.new → (p q : Know) → HasType Truth p → HasType Truth q →
        Shows nets a p → Shows nets b q → Shows nets r (apply2_of op2.Imp p q)) }
{
    let right = wires.and(b.known, b.value)?;
    let always = wires.flag(true)?;
    let left = wires.select(a.value, b.known, always)?;
    let known = wires.select(a.known, left, right)?;
    let value = wires.choose(Ty::Bool, a.value, b.value, always)?;
    Ok(Rail { known, value })
}
