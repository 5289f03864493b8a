//! What one line more makes of a draft.

ghost use Rattle.std.specs.Prelude.{◌≡◌, ◌++◌, ◌∷◌, ◌⊎◌, Some, None, List, ℕ, IfOk, MatchOption, length, codes, slice_get};
ghost use Rattle.std.specs.Fmt.{decimal};
ghost use Rattle.std.specs.Option.{option_map};
ghost use Rattle.qz_values.specs.Types.{IsType};
ghost use Rattle.qz_values.specs.Values.{type_of, IsValue};
ghost use Rattle.qz_values.specs.declared.Value.{Value};
ghost use Rattle.qz_values.specs.declared.Ty.{Ty};
ghost use Rattle.qz_syntax.specs.declared.declarations.Port.{Port};
ghost use Rattle.qz_verilog.specs.Types.{right_side_type};
ghost use Rattle.qz_verilog.specs.Validity.{IsNetOf};
ghost use Rattle.qz_vtext.specs.Names.{name_text};
ghost use Rattle.qz_vtext.specs.Spelling.{type_text};
ghost use Rattle.qz_vtext.specs.Lines.{module_line, assign_line, output_line, initial_line, next_line};
ghost use Rattle.qz_vread.specs.Naming.{IsNamed};
ghost use Rattle.qz_vread.specs.Parts.{NoFront};
ghost use Rattle.qz_vread.specs.declared.drafts.Stage.TheVariants as stage;
ghost use Rattle.qz_vread.specs.Reading.{Reads, IsMarked, HasMarked, numbered_line};
ghost use Rattle.qz_vread.specs.Drafts.{IsComma, IsStep, IsStepAt, IsLine, IsFixed, IsNewName, IsInputPart, IsOutputPart, IsInputLine, IsOutputLine, IsRegisterPart, IsWirePart, IsNetStep, IsAssignLine, IsOutputStep, IsOutputOf, IsInitialOf, IsNextOf, Takes, types_in, after_port};

use crate::bytes::{between, split_at, strip, strip_end};
use crate::drafts::{Draft, Stage};
use crate::driven::are_driven;
use crate::names::name;
use crate::numbers::{is_number, strip_numbered};
use crate::types::{constant, declared_type};
use qz_syntax::{Name, Port};
use qz_values::{Ty, Value};
use qz_verilog::{Ref, Rhs};
use sqlite_items::at;
use std::alloc::{AllocError, Global};

impl Draft {
    /// One line more, without its line feed. `false` where it can't come next.
    pub fn take(&mut self, alloc: Global, line: &[u8]) -> Result<bool, AllocError>
        ensures { IfOk result (λ taken. Takes (IsStep self.old line.now) self.new taken) }
    {
        match self.stage {
            Stage::Name => self.take_name(alloc, line),
            Stage::Clock => Ok(self.take_clock(line)),
            Stage::Port => self.take_port(alloc, line),
            Stage::PortsEnd => Ok(self.take_fixed(line, b");", Stage::Net)),
            Stage::Net => self.take_net(line),
            Stage::Assign(ty) => self.take_assign(ty, line),
            Stage::Output => self.take_output(line),
            Stage::Initial => self.take_value(line),
            Stage::Always => Ok(self.take_fixed(
                line,
                b"  always @(posedge clk) begin",
                Stage::Next,
            )),
            Stage::Next => self.take_next(line),
            Stage::ModuleEnd => Ok(self.take_fixed(line, b"endmodule", Stage::Nothing)),
            Stage::Nothing => Ok(false),
        }
    }

    /// A line that has only one text.
    fn take_fixed(&mut self, line: &[u8], text: &[u8], stage: Stage) -> bool
        ensures { Takes (IsFixed text.now (record self.old { stage = stage }) line.now) self.new result }
    {
        if line != text {
            return false;
        }
        self.stage = stage;
        true
    }

    /// `module q_N(`
    fn take_name(&mut self, alloc: Global, line: &[u8]) -> Result<bool, AllocError>
        ensures { IfOk result (λ taken. Takes (IsStepAt stage.Name self.old line.now) self.new taken) }
    {
        let Some(name) = module_name(alloc, line)? else {
            return Ok(false);
        };
        self.name = Some(name);
        self.stage = Stage::Clock;
        Ok(true)
    }

    /// `  input clk`
    fn take_clock(&mut self, line: &[u8]) -> bool
        ensures { Takes (IsStepAt stage.Clock self.old line.now) self.new result }
    {
        let (port, stage) = split_comma(line);
        self.take_fixed(port, b"  input clk", stage)
    }

    /// `  input Wi_N`, if there is no output so far, or `  output Wo_N`.
    fn take_port(&mut self, alloc: Global, line: &[u8]) -> Result<bool, AllocError>
        ensures { IfOk result (λ taken. Takes (IsStepAt stage.Port self.old line.now) self.new taken) }
    {
        let (port, stage) = split_comma(line);
        if let Some(input) = strip(port, b"  input ") {
            return self.take_input_port(alloc, input, stage);
        }
        match strip(port, b"  output ") {
            Some(output) => self.take_output_port(alloc, output, stage),
            None => Ok(false),
        }
    }

    fn take_input_port(
        &mut self,
        alloc: Global,
        text: &[u8],
        stage: Stage,
    ) -> Result<bool, AllocError>
        ensures { IfOk result (λ taken. Takes (IsInputPart self.old stage text.now) self.new taken) }
    {
        if !self.ports.outputs().is_empty() {
            return Ok(false);
        }
        let Some((ty, spelled)) = port(text, b"i_") else {
            return Ok(false);
        };
        let Some(name) = self.new_name(alloc, spelled)? else {
            return Ok(false);
        };
        self.ports.add_input(alloc, Port { name, ty }, spelled)?;
        self.stage = stage;
        Ok(true)
    }

    fn take_output_port(
        &mut self,
        alloc: Global,
        text: &[u8],
        stage: Stage,
    ) -> Result<bool, AllocError>
        ensures { IfOk result (λ taken. Takes (IsOutputPart self.old stage text.now) self.new taken) }
    {
        let Some((ty, spelled)) = port(text, b"o_") else {
            return Ok(false);
        };
        let Some(name) = self.new_name(alloc, spelled)? else {
            return Ok(false);
        };
        self.ports.add_output(alloc, Port { name, ty }, spelled)?;
        self.stage = stage;
        Ok(true)
    }

    /// The name with this spelling, if no port has it.
    fn new_name(&self, alloc: Global, spelled: &[u8]) -> Result<Option<Name>, AllocError>
        ensures { IfOk result (λ found. Reads (IsNewName self.now.ports) name_text spelled.now found) }
    {
        if !self.ports.is_free(spelled) {
            return Ok(None);
        }
        name(alloc, spelled)
    }

    /// `  reg Wr_K;`, if there is no wire so far, `  wire Ww_K;`, or what comes after the wires.
    fn take_net(&mut self, line: &[u8]) -> Result<bool, AllocError>
        ensures { IfOk result (λ taken. Takes (IsNetStep self.old line.now) self.new taken) }
    {
        if let Some(text) = strip(line, b"  reg ") {
            return self.take_register(text);
        }
        if let Some(text) = strip(line, b"  wire ") {
            return Ok(self.take_wire(text));
        }
        if !are_driven(&self.nets(), self.ports.outputs()) {
            return Ok(false);
        }
        self.take_output(line)
    }

    fn take_register(&mut self, text: &[u8]) -> Result<bool, AllocError>
        ensures { IfOk result (λ taken. Takes (IsRegisterPart self.old text.now) self.new taken) }
    {
        if !self.wires.is_empty() {
            return Ok(false);
        }
        let Some(ty) = numbered_type(text, b"r_", self.registers.len()) else {
            return Ok(false);
        };
        self.registers.push(Value::zero_of(ty))?;
        self.stage = Stage::Net;
        Ok(true)
    }

    fn take_wire(&mut self, text: &[u8]) -> bool
        ensures { Takes (IsWirePart self.old text.now) self.new result }
    {
        let Some(ty) = numbered_type(text, b"w_", self.wires.len()) else {
            return false;
        };
        self.stage = Stage::Assign(ty);
        true
    }

    /// `  assign w_K = RHS;`
    fn take_assign(&mut self, ty: Ty, line: &[u8]) -> Result<bool, AllocError>
        ensures { IfOk result (λ taken. Takes (IsAssignLine ty self.old line.now) self.new taken) }
    {
        let Some(right) = self.assigned(ty, line) else {
            return Ok(false);
        };
        self.wires.push((ty, right))?;
        self.stage = Stage::Net;
        Ok(true)
    }

    fn assigned(&self, ty: Ty, line: &[u8]) -> Option<Rhs>
        ensures { Reads (λ right. right_side_type (types_in self.now) right ≡ Some ty) (assign_line self.now.ports.inputs (length self.now.wires)) line.now result }
    {
        let text = numbered(line, b"  assign w_", self.wires.len(), b"= ")?;
        self.nets().right_side(ty, text)
    }

    /// `  assign o_N = REF;`, or what comes after the outputs.
    fn take_output(&mut self, line: &[u8]) -> Result<bool, AllocError>
        ensures { IfOk result (λ taken. Takes (IsOutputStep self.old line.now) self.new taken) }
    {
        match self.output_type() {
            Some(ty) => self.take_driver(ty, line),
            None => Ok(self.take_fixed(line, b"  initial begin", Stage::Initial)),
        }
    }

    /// The type of the next output.
    fn output_type(&self) -> Option<Ty>
        ensures { result ≡ option_map (λ (port : Port). port.ty) (slice_get self.now.ports.outputs (length self.now.outs)) }
    {
        Some(at(self.ports.outputs(), self.outs.len())?.ty)
    }

    fn take_driver(&mut self, ty: Ty, line: &[u8]) -> Result<bool, AllocError>
        ensures { (port : Port) → slice_get self.old.ports.outputs (length self.old.outs) ≡ Some port → port.ty ≡ ty →
            IfOk result (λ taken. Takes (IsOutputOf (Some port) self.old line.now) self.new taken) }
    {
        let Some(net) = self.driver(ty, line) else {
            return Ok(false);
        };
        self.outs.push(net)?;
        self.stage = Stage::Output;
        Ok(true)
    }

    /// The net that drives the next output, which is of this type.
    fn driver(&self, ty: Ty, line: &[u8]) -> Option<Ref>
        ensures { (port : Port) → slice_get self.now.ports.outputs (length self.now.outs) ≡ Some port →
            Reads (IsNetOf (types_in self.now) ty) (output_line self.now.ports.inputs port) line.now result }
    {
        let (spelled, rest) = split_at(strip(line, b"  assign o_")?, b' ')?;
        if !self.ports.is_output(self.outs.len(), spelled) {
            return None;
        }
        self.nets().net_of(ty, between(rest, b"= ", b";")?)
    }

    /// `    r_K = CONST;`, or the end of the block.
    fn take_value(&mut self, line: &[u8]) -> Result<bool, AllocError>
        ensures { IfOk result (λ taken. Takes (IsStepAt stage.Initial self.old line.now) self.new taken) }
    {
        match self.register_type(self.values.len()) {
            Some(ty) => self.take_initial(ty, line),
            None => Ok(self.take_fixed(line, b"  end", Stage::Always)),
        }
    }

    /// The type of a register.
    fn register_type(&self, number: usize) -> Option<Ty>
        ensures { result ≡ option_map type_of (slice_get self.now.registers number) }
    {
        Some(at(self.registers.as_slice(), number)?.ty())
    }

    fn take_initial(&mut self, ty: Ty, line: &[u8]) -> Result<bool, AllocError>
        ensures { (register : Value) → type_of register ≡ ty →
            IfOk result (λ taken. Takes (IsInitialOf (Some register) self.old line.now) self.new taken) }
    {
        let Some(value) = self.value(ty, line) else {
            return Ok(false);
        };
        self.values.push(value)?;
        self.stage = Stage::Initial;
        Ok(true)
    }

    /// The next register's initial value, which is of this type.
    fn value(&self, ty: Ty, line: &[u8]) -> Option<Value>
        ensures { Reads (λ value. IsValue value × (type_of value ≡ ty)) (initial_line (length self.now.values)) line.now result }
    {
        constant(ty, numbered(line, b"    r_", self.values.len(), b"= ")?)
    }

    /// `    r_K <= REF;`, or the end of the block.
    fn take_next(&mut self, line: &[u8]) -> Result<bool, AllocError>
        ensures { IfOk result (λ taken. Takes (IsStepAt stage.Next self.old line.now) self.new taken) }
    {
        match self.register_type(self.nexts.len()) {
            Some(ty) => self.take_next_net(ty, line),
            None => Ok(self.take_fixed(line, b"  end", Stage::ModuleEnd)),
        }
    }

    fn take_next_net(&mut self, ty: Ty, line: &[u8]) -> Result<bool, AllocError>
        ensures { (register : Value) → type_of register ≡ ty →
            IfOk result (λ taken. Takes (IsNextOf (Some register) self.old line.now) self.new taken) }
    {
        let Some(net) = self.next(ty, line) else {
            return Ok(false);
        };
        self.nexts.push(net)?;
        self.stage = Stage::Next;
        Ok(true)
    }

    /// What the next register takes, which is of this type.
    fn next(&self, ty: Ty, line: &[u8]) -> Option<Ref>
        ensures { Reads (IsNetOf (types_in self.now) ty) (next_line self.now.ports.inputs (length self.now.nexts)) line.now result }
    {
        self.nets()
            .net_of(ty, numbered(line, b"    r_", self.nexts.len(), b"<= ")?)
    }
}

/// The name in `module q_N(`.
fn module_name(alloc: Global, line: &[u8]) -> Result<Option<Name>, AllocError>
    ensures { IfOk result (λ found. Reads IsNamed module_line line.now found) }
{
    match between(line, b"module q_", b"(") {
        Some(spelled) => name(alloc, spelled),
        None => Ok(None),
    }
}

/// A line of the list of ports without its comma, and what comes after it.
fn split_comma(line: &[u8]) -> (&[u8], Stage)
    ensures { IsComma line.now result.0.now result.1 }
{
    match strip_end(line, b",") {
        Some(port) => (port, Stage::Port),
        None => (line, Stage::PortsEnd),
    }
}

/// A type, and what follows the mark after it.
fn port<'t>(text: &'t [u8], mark: &[u8]) -> Option<(Ty, &'t [u8])>
    requires { (rest : List ℕ) → NoFront (mark.now ++ rest) (codes "[") }
    ensures { MatchOption result ((t : Ty) (rest : List ℕ) → IsMarked mark.now text.now t rest → ⊥)
        (λ read. HasMarked mark.now text.now read.0 read.1.now) }
{
    let (ty, rest) = declared_type(text)?;
    Some((ty, strip(rest, mark)?))
}

/// The type before what has this mark and number.
fn numbered_type(text: &[u8], mark: &[u8], number: usize) -> Option<Ty>
    requires { (rest : List ℕ) → NoFront (mark.now ++ rest) (codes "[") }
    ensures { Reads IsType (λ t. type_text t ++ (mark.now ++ (decimal number ++ codes ";"))) text.now result }
{
    let (ty, rest) = declared_type(text)?;
    if is_number(between(rest, mark, b";")?, number as u64) {
        Some(ty)
    } else {
        None
    }
}

/// What stands after `before`, this number, a space and `after`, up to a `;`.
fn numbered<'t>(line: &'t [u8], before: &[u8], number: usize, after: &[u8]) -> Option<&'t [u8]>
    ensures { MatchOption result ((text : List ℕ) → line.now ≡ numbered_line before.now number after.now text → ⊥)
        (λ text. line.now ≡ numbered_line before.now number after.now text.now) }
{
    between(
        strip_numbered(line, before, number as u64, b' ')?,
        after,
        b";",
    )
}
