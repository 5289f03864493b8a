//! Whether what is known of instances is of their types.

ghost use Rattle.std.specs.Prelude.{◌≡◌, ◌↔◌, Some, IsTrue, slice_index_or};
ghost use Rattle.qz_values.specs.declared.Ty.{Ty as TyOf};
ghost use Rattle.qz_values.specs.declared.Know.TheVariants as know;
ghost use Rattle.qz_values.specs.Types.{IsType};
ghost use Rattle.qz_values.specs.Fits.{HasType};
ghost use Rattle.qz_system.specs.Parts.{AreParts, instance_type};
ghost use Rattle.qz_system.specs.Rounds.{HaveTypes};

use crate::parts::SystemParts;
use crate::wired::instance_type;
use qz_values::{Know, Ty, Value};

/// Whether what is known of each instance is of the type of its cell.
pub(crate) fn have_types(parts: &SystemParts, now: &[Know]) -> bool
    requires { AreParts parts.now }
    ensures { IsTrue result ↔ HaveTypes parts.now now.now }
{
    for number in 0..parts.instances.len() {
        if !has_type(parts, number, now) {
            return false;
        }
    }
    true
}

/// Whether what is known of an instance is of the type of its cell.
fn has_type(parts: &SystemParts, number: usize, now: &[Know]) -> bool
    requires { AreParts parts.now }
    ensures { IsTrue result ↔ ((ty : TyOf) → instance_type parts.now number ≡ Some ty → HasType ty (slice_index_or now.now number know.Unknown)) }
{
    match instance_type(parts, number) {
        Some(ty) => is_of(known_at(now, number), ty),
        None => true,
    }
}

/// What is known of an instance; nothing of one that isn't there.
fn known_at(now: &[Know], number: usize) -> Know
    ensures { result ≡ slice_index_or now.now number know.Unknown }
{
    now.get(number).copied().unwrap_or(Know::Unknown)
}

/// Whether what is known, if it is a value, is of this type.
fn is_of(know: Know, ty: Ty) -> bool
    requires { IsType ty }
    ensures { IsTrue result ↔ HasType ty know }
{
    match know {
        Know::Known(value) => value.ty() == ty && Value::new(ty, value.bits()).is_some(),
        Know::Unknown | Know::Clash => true,
    }
}
