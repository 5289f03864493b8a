//! Flags: bools by `?:` alone, folded where an operand is constant. What a flag says is whether it is
//! `true`.

ghost use Rattle.std.specs.Prelude.{◌≡◌, ◌&&◌, ◌||◌, not, IfOk, OnOk, if◌then◌else◌};
ghost use Rattle.qz_values.specs.Types.{IsType};
ghost use Rattle.qz_values.specs.Values.{is_yes, truth_of};
ghost use Rattle.qz_values.specs.declared.Ty.TheVariants.{Bool as Truth};
ghost use Rattle.qz_verilog.specs.Validity.{IsNetOf};
ghost use Rattle.qz_verilog.specs.Meaning.{value_at};
ghost use Rattle.qz_wires.specs.WireTable.{types_in, Extends, Carries, CarriesFlag};

use crate::wires::Wires;
use qz_values::{Ty, Value};
use qz_verilog::{Ref, Rhs};
use std::alloc::AllocError;

impl Wires {
    /// A flag that is always `true`, or never.
    pub fn flag(&mut self, value: bool) -> Result<Ref, AllocError>
        ensures extends { OnOk result (Extends self.old self.new) }
        ensures typed { IfOk result (λ net. IsNetOf (types_in self.new) Truth net) }
        ensures means { IfOk result (λ net. Carries self.new net (λ nets. truth_of value)) }
    {
        self.constant(Value::truth(value))
    }

    /// `c ? a : b`, of a flag and two nets of this type.
    #[tactic(auto, using(crate::proofs::Choices::choose_typed, crate::proofs::Choices::chosen_same))]
    pub fn choose(&mut self, ty: Ty, c: Ref, a: Ref, b: Ref) -> Result<Ref, AllocError>
        requires ty { IsType ty }
        requires condition { IsNetOf (types_in self.old) Truth c }
        requires first { IsNetOf (types_in self.old) ty a }
        requires second { IsNetOf (types_in self.old) ty b }
        ensures extends { OnOk result (Extends self.old self.new) }
        ensures typed { IfOk result (λ net. IsNetOf (types_in self.new) ty net) }
        ensures means { IfOk result (λ net. Carries self.new net
            (λ nets. (if is_yes (value_at nets c) then value_at nets a else value_at nets b))) }
    {
        if a == b || self.is_constant(c, true) {
            return Ok(a);
        }
        if self.is_constant(c, false) {
            return Ok(b);
        }
        self.add(ty, Rhs::Choose(c, a, b))
    }

    /// Whether the first is so where the condition is, and else the second.
    pub fn select(&mut self, c: Ref, a: Ref, b: Ref) -> Result<Ref, AllocError>
        requires condition { IsNetOf (types_in self.old) Truth c }
        requires first { IsNetOf (types_in self.old) Truth a }
        requires second { IsNetOf (types_in self.old) Truth b }
        ensures extends { OnOk result (Extends self.old self.new) }
        ensures typed { IfOk result (λ net. IsNetOf (types_in self.new) Truth net) }
        ensures means { IfOk result (λ net. CarriesFlag self.new net
            (λ nets. (if is_yes (value_at nets c) then is_yes (value_at nets a) else is_yes (value_at nets b)))) }
    {
        let net = self.choose(Ty::Bool, c, a, b)?;
        Ok(net)
    }

    /// Whether it isn't so.
    pub fn not(&mut self, a: Ref) -> Result<Ref, AllocError>
        requires { IsNetOf (types_in self.old) Truth a }
        ensures extends { OnOk result (Extends self.old self.new) }
        ensures typed { IfOk result (λ net. IsNetOf (types_in self.new) Truth net) }
        ensures means { IfOk result (λ net. CarriesFlag self.new net (λ nets. not (is_yes (value_at nets a)))) }
    {
        let never = self.flag(false)?;
        let always = self.flag(true)?;
        let net = self.choose(Ty::Bool, a, never, always)?;
        Ok(net)
    }

    /// Whether both are so.
    pub fn and(&mut self, a: Ref, b: Ref) -> Result<Ref, AllocError>
        requires left { IsNetOf (types_in self.old) Truth a }
        requires right { IsNetOf (types_in self.old) Truth b }
        ensures extends { OnOk result (Extends self.old self.new) }
        ensures typed { IfOk result (λ net. IsNetOf (types_in self.new) Truth net) }
        ensures means { IfOk result (λ net. CarriesFlag self.new net
            (λ nets. is_yes (value_at nets a) && is_yes (value_at nets b))) }
    {
        if self.is_constant(b, true) {
            return Ok(a);
        }
        let never = self.flag(false)?;
        let net = self.choose(Ty::Bool, a, b, never)?;
        Ok(net)
    }

    /// Whether one of them is so.
    pub fn or(&mut self, a: Ref, b: Ref) -> Result<Ref, AllocError>
        requires left { IsNetOf (types_in self.old) Truth a }
        requires right { IsNetOf (types_in self.old) Truth b }
        ensures extends { OnOk result (Extends self.old self.new) }
        ensures typed { IfOk result (λ net. IsNetOf (types_in self.new) Truth net) }
        ensures means { IfOk result (λ net. CarriesFlag self.new net
            (λ nets. is_yes (value_at nets a) || is_yes (value_at nets b))) }
    {
        if self.is_constant(b, false) {
            return Ok(a);
        }
        let always = self.flag(true)?;
        let net = self.choose(Ty::Bool, a, always, b)?;
        Ok(net)
    }
}
