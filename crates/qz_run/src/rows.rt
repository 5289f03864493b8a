//! Rows of numbers and rows of values.

ghost use Rattle.std.specs.Prelude.{◌≡◌, ◌++◌, map, length, OnOk};
ghost use Rattle.std.specs.List.{AllByRecursion};
ghost use Rattle.qz_values.specs.Types.{IsType};
ghost use Rattle.qz_values.specs.Values.{value_of, bits_of, IsValue};
ghost use Rattle.qz_trace.specs.Rows.{IsRow};
ghost use Rattle.qz_run.specs.Inputs.{values_of};

use qz_values::{Ty, Value};
use std::alloc::AllocError;

/// Sets `values` to these numbers, each as a value of its type.
pub(crate) fn take_numbers(
    types: &[Ty],
    numbers: &[u64],
    values: &mut Vec<Value>,
) -> Result<(), AllocError>
    requires types { AllByRecursion IsType types.now }
    requires count { length numbers.now ≡ length types.now }
    requires row { IsRow types.now numbers.now }
    ensures { OnOk result (values.new.items ≡ values_of types.now numbers.now) }
{
    values.clear();
    for (at, ty) in types.iter().enumerate() {
        values.push(value_with(*ty, numbers[at]))?;
    }
    Ok(())
}

/// The value of a type with these bits, which fit it.
fn value_with(ty: Ty, bits: u64) -> Value
    requires { IsValue (value_of ty bits) }
    ensures { result ≡ value_of ty bits }
{
    match Value::new(ty, bits) {
        Some(value) => value,
        None => Value::truth(false),
    }
}

/// Appends the numbers of values.
pub(crate) fn push_numbers(values: &[Value], numbers: &mut Vec<u64>) -> Result<(), AllocError>
    ensures { OnOk result (numbers.new.items ≡ numbers.old.items ++ map bits_of values.now) }
{
    for value in values {
        numbers.push(value.bits())?;
    }
    Ok(())
}
