//! The operators on rails: where operands are known, and where one alone decides, what the operator on
//! knowledge gives.

ghost use Rattle.std.specs.Prelude.{◌≡◌, true, IfOk, OnOk, Some};
ghost use Rattle.qz_values.specs.declared.Ty.TheVariants.{Bool as Truth};
ghost use Rattle.qz_values.specs.declared.Know.{Know};
ghost use Rattle.qz_values.specs.declared.Know.TheVariants as know;
ghost use Rattle.qz_values.specs.Values.{IsValue, type_of};
ghost use Rattle.qz_values.specs.Operators.{value2};
ghost use Rattle.qz_values.specs.Tables.{type1_of, type2_of};
ghost use Rattle.qz_values.specs.Knowledge.{apply1_of, apply2_of, choose_of, bit_of, slice_of, concat_of, from_both};
ghost use Rattle.qz_values.specs.Fits.{HasType};
ghost use Rattle.qz_verilog.specs.declared.nets.Rhs.TheVariants as rhs;
ghost use Rattle.qz_verilog.specs.Types.{has_sign, right_side_type};
ghost use Rattle.qz_verilog.specs.Validity.{IsNetOf};
ghost use Rattle.qz_verilog.specs.Meaning.{Nets};
ghost use Rattle.qz_wires.specs.WireTable.{types_in, Reads, Extends};
ghost use Rattle.qz_wires.specs.Rails.{Shows, IsRail};

use crate::bools::{and, implies, or};
use crate::rails::Rail;
use crate::wires::Wires;
use qz_values::{Op1, Op2, Ty, Value};
use qz_verilog::Rhs;
use std::alloc::AllocError;

/// A value that is known.
pub fn constant(wires: &mut Wires, value: Value) -> Result<Rail, AllocError>
    requires { IsValue value }
    ensures extends { OnOk result (Extends wires.old wires.new) }
    ensures rail { IfOk result (λ r. IsRail (types_in wires.new) (type_of value) r) }
    ensures means { IfOk result (λ r. (nets : Nets) → Reads nets wires.new → Shows nets r (know.Known value)) }
{
    let known = wires.flag(true)?;
    let net = wires.constant(value)?;
    Ok(Rail { known, value: net })
}

/// `!` and `~`, of an operand of this type, which the operator takes.
#[tactic(auto, using(crate::proofs::OperatorTypes::inverted_type_of))]
pub fn apply1(wires: &mut Wires, op: Op1, ty: Ty, a: Rail) -> Result<Rail, AllocError>
    requires takes { type1_of op ty ≡ Some ty }
    requires a { IsRail (types_in wires.old) ty a }
    ensures extends { OnOk result (Extends wires.old wires.new) }
    ensures rail { IfOk result (λ r. IsRail (types_in wires.new) ty r) }
    ensures means { IfOk result (λ r. (nets : Nets) → Reads nets wires.new → (p : Know) → HasType ty p →
        Shows nets a p → Shows nets r (apply1_of op p)) }
{
    let value = wires.add(ty, Rhs::Invert(a.value))?;
    Ok(Rail {
        known: a.known,
        value,
    })
}

/// An operator with two operands of one type, which it takes, and with a result of type `given`.
pub fn apply2(
    wires: &mut Wires,
    op: Op2,
    ty: Ty,
    given: Ty,
    a: Rail,
    b: Rail,
) -> Result<Rail, AllocError>
    requires takes { type2_of op ty ty ≡ Some given }
    requires a { IsRail (types_in wires.old) ty a }
    requires b { IsRail (types_in wires.old) ty b }
    ensures extends { OnOk result (Extends wires.old wires.new) }
    ensures rail { IfOk result (λ r. IsRail (types_in wires.new) given r) }
    ensures means { IfOk result (λ r. (nets : Nets) → Reads nets wires.new → (p q : Know) → HasType ty p → HasType ty q →
        Shows nets a p → Shows nets b q → Shows nets r (apply2_of op p q)) }
{
    match ty {
        Ty::Bool => match op {
            Op2::And => and(wires, a, b),
            Op2::Or => or(wires, a, b),
            Op2::Imp => implies(wires, a, b),
            _ => strict(wires, op, ty, given, a, b),
        },
        Ty::Bv(_) => strict(wires, op, ty, given, a, b),
    }
}

/// An operator whose result is known where both operands are.
#[tactic(auto, using(crate::proofs::OperatorTypes::bin_typed, crate::proofs::OperatorTypes::result2))]
fn strict(
    wires: &mut Wires,
    op: Op2,
    ty: Ty,
    given: Ty,
    a: Rail,
    b: Rail,
) -> Result<Rail, AllocError>
    requires takes { type2_of op ty ty ≡ Some given }
    requires sign { has_sign op ≡ true }
    requires a { IsRail (types_in wires.old) ty a }
    requires b { IsRail (types_in wires.old) ty b }
    ensures extends { OnOk result (Extends wires.old wires.new) }
    ensures rail { IfOk result (λ r. IsRail (types_in wires.new) given r) }
    ensures means { IfOk result (λ r. (nets : Nets) → Reads nets wires.new → (p q : Know) →
        Shows nets a p → Shows nets b q → Shows nets r (from_both (value2 op) p q)) }
{
    let known = wires.and(a.known, b.known)?;
    let value = wires.add(given, Rhs::Bin(op, a.value, b.value))?;
    Ok(Rail { known, value })
}

/// `a @ b`, of operands that can be joined, with a result of type `given`.
#[tactic(auto, using(crate::proofs::OperatorTypes::right_concat))]
pub fn concat(wires: &mut Wires, given: Ty, a: Rail, b: Rail) -> Result<Rail, AllocError>
    requires takes { right_side_type (types_in wires.old) (rhs.Concat a.value b.value) ≡ Some given }
    requires left { IsNetOf (types_in wires.old) Truth a.known }
    requires right { IsNetOf (types_in wires.old) Truth b.known }
    ensures extends { OnOk result (Extends wires.old wires.new) }
    ensures rail { IfOk result (λ r. IsRail (types_in wires.new) given r) }
    ensures means { IfOk result (λ r. (nets : Nets) → Reads nets wires.new → (p q : Know) →
        Shows nets a p → Shows nets b q → Shows nets r (concat_of p q)) }
{
    let value = wires.add(given, Rhs::Concat(a.value, b.value))?;
    let known = wires.and(a.known, b.known)?;
    Ok(Rail { known, value })
}

/// `c ? a : b`, of a bool and two sides of this type.
pub fn choose(wires: &mut Wires, ty: Ty, c: Rail, a: Rail, b: Rail) -> Result<Rail, AllocError>
    requires c { IsRail (types_in wires.old) Truth c }
    requires a { IsRail (types_in wires.old) ty a }
    requires b { IsRail (types_in wires.old) ty b }
    ensures extends { OnOk result (Extends wires.old wires.new) }
    ensures rail { IfOk result (λ r. IsRail (types_in wires.new) ty r) }
    ensures means { IfOk result (λ r. (nets : Nets) → Reads nets wires.new → (s p q : Know) →
        Shows nets c s → Shows nets a p → Shows nets b q → Shows nets r (choose_of s p q)) }
{
    let side = wires.select(c.value, a.known, b.known)?;
    let known = wires.and(c.known, side)?;
    let value = wires.choose(ty, c.value, a.value, b.value)?;
    Ok(Rail { known, value })
}

/// `e{i}`, of a vector that has the bit.
pub fn bit(wires: &mut Wires, a: Rail, i: u8) -> Result<Rail, AllocError>
    requires takes { right_side_type (types_in wires.old) (rhs.Bit a.value i) ≡ Some Truth }
    requires known { IsNetOf (types_in wires.old) Truth a.known }
    ensures extends { OnOk result (Extends wires.old wires.new) }
    ensures rail { IfOk result (λ r. IsRail (types_in wires.new) Truth r) }
    ensures means { IfOk result (λ r. (nets : Nets) → Reads nets wires.new → (p : Know) →
        Shows nets a p → Shows nets r (bit_of p i)) }
{
    let value = wires.add(Ty::Bool, Rhs::Bit(a.value, i))?;
    Ok(Rail {
        known: a.known,
        value,
    })
}

/// `e{high:low}`, of a vector that has the bits, with a result of type `given`.
#[tactic(auto, using(crate::proofs::OperatorTypes::right_slice))]
pub fn slice(wires: &mut Wires, given: Ty, a: Rail, high: u8, low: u8) -> Result<Rail, AllocError>
    requires takes { right_side_type (types_in wires.old) (rhs.Slice a.value high low) ≡ Some given }
    requires known { IsNetOf (types_in wires.old) Truth a.known }
    ensures extends { OnOk result (Extends wires.old wires.new) }
    ensures rail { IfOk result (λ r. IsRail (types_in wires.new) given r) }
    ensures means { IfOk result (λ r. (nets : Nets) → Reads nets wires.new → (p : Know) →
        Shows nets a p → Shows nets r (slice_of p high low)) }
{
    let value = wires.add(given, Rhs::Slice(a.value, high, low))?;
    Ok(Rail {
        known: a.known,
        value,
    })
}
