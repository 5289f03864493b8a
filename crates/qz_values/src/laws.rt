//! Laws of the operators on knowledge. Each call does nothing: its clauses hold of all operands.

ghost use Rattle.std.specs.Prelude.{ℕ};
ghost use Rattle.qz_values.specs.declared.Op1.{Op1};
ghost use Rattle.qz_values.specs.declared.Op2.{Op2};
ghost use Rattle.qz_values.specs.Knowledge.{apply1_of, apply2_of, choose_of, bit_of, slice_of, concat_of};
ghost use Rattle.qz_values.specs.Tables.{type1_of, type2_of, choose_type, bit_type, slice_type, concat_type};
ghost use Rattle.qz_values.specs.Fits.{Fits1, Fits2, FitsChoose, FitsBit, FitsSlice, FitsConcat, IsTyped1, IsTyped2, IsTyped3};
ghost use Rattle.qz_values.specs.Order.{Below, IsPartialOrder, IsMonotone1, IsMonotone2, IsMonotone3};

/// Knowledge is ordered, though not every two are.
pub fn order_is_partial()
    ensures { IsPartialOrder Below }
{}

/// More knowledge of an operand never makes less known of the result.
pub fn operators_are_monotone()
    ensures apply1 { (op : Op1) → IsMonotone1 (apply1_of op) }
    ensures apply2 { (op : Op2) → IsMonotone2 (apply2_of op) }
    ensures choose { IsMonotone3 choose_of }
    ensures bit { (i : ℕ) → IsMonotone1 (λ a. bit_of a i) }
    ensures slice { (high low : ℕ) → IsMonotone1 (λ a. slice_of a high low) }
    ensures concat { IsMonotone2 concat_of }
{}

/// Operands of types that an operator takes may be given to it, and its result is of the type that
/// the tables of types name.
pub fn operators_keep_types()
    ensures apply1 { (op : Op1) → IsTyped1 (type1_of op) (Fits1 op) (apply1_of op) }
    ensures apply2 { (op : Op2) → IsTyped2 (type2_of op) (Fits2 op) (apply2_of op) }
    ensures choose { IsTyped3 choose_type FitsChoose choose_of }
    ensures bit { (i : ℕ) → IsTyped1 (λ t. bit_type t i) (λ a. FitsBit a i) (λ a. bit_of a i) }
    ensures slice { (high low : ℕ) →
        IsTyped1 (λ t. slice_type t high low) (λ a. FitsSlice a high low) (λ a. slice_of a high low) }
    ensures concat { IsTyped2 concat_type FitsConcat concat_of }
{}
