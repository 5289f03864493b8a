//! A module's text, line by line.

ghost use Rattle.std.specs.Prelude.{◌≡◌, ◌++◌, [], ◌∷◌, map, codes, string_bytes, IfOk, OnOk};
ghost use Rattle.std.specs.List.{flat_map};
ghost use Rattle.qz_verilog.specs.Validity.{IsValid};
ghost use Rattle.qz_vtext.specs.Lines.{module_line, input_text, output_text, register_line, wire_line, assign_line, output_line, initial_line, next_line, numbered, register_lines, wire_lines, output_lines, initial_lines, next_lines};
ghost use Rattle.qz_vtext.specs.Text.{port_lines, head_lines, net_lines, initial_block, clock_block, behavior_lines, joined, text_of, IsTextOf};
ghost use Rattle.qz_vtext.specs.Writing.{later_ports};

use crate::pen::Pen;
use crate::spell::{push_constant, push_name, push_type};
use qz_syntax::{Name, Port};
use qz_values::{Ty, Value};
use qz_verilog::{Ref, Rhs, VModule};
use std::alloc::{AllocError, Global};

/// The text of a valid module.
pub fn write_v(alloc: Global, m: &VModule) -> Result<Vec<u8>, AllocError>
    requires { IsValid m.now }
    ensures { IfOk result (λ bytes. IsTextOf m.now bytes.items) }
{
    let text = text(alloc, m)?;
    Ok(text.into_bytes())
}

fn text(alloc: Global, m: &VModule) -> Result<String, AllocError>
    requires { IsValid m.now }
    ensures { IfOk result (λ text. string_bytes text ≡ text_of m.now) }
{
    let mut text = String::new(alloc);
    head(alloc, &mut text, m)?;
    nets(alloc, &mut text, m)?;
    behavior(alloc, &mut text, m)?;
    text.push_str("endmodule\n")?;
    Ok(text)
}

/// The module's name and its ports.
fn head(alloc: Global, text: &mut String, m: &VModule) -> Result<(), AllocError>
    ensures { OnOk result (string_bytes text.new ≡ string_bytes text.old ++ joined (head_lines m.now)) }
{
    first_line(alloc, text, &m.name)?;
    ports(alloc, text, m.inputs.as_slice(), m.outputs.as_slice())?;
    text.push_str(");\n")
}

fn first_line(alloc: Global, text: &mut String, name: &Name) -> Result<(), AllocError>
    ensures { OnOk result (string_bytes text.new ≡ string_bytes text.old ++ joined (module_line name.now ∷ [])) }
{
    text.push_str("module q_")?;
    push_name(alloc, text, name)?;
    text.push_str("(\n")
}

/// The list of ports, which begins with the clock.
fn ports(
    alloc: Global,
    text: &mut String,
    inputs: &[Port],
    outputs: &[Port],
) -> Result<(), AllocError>
    ensures { OnOk result (string_bytes text.new ≡ string_bytes text.old ++ joined (port_lines inputs.now outputs.now)) }
{
    text.push_str("  input clk")?;
    later_inputs(alloc, text, inputs)?;
    later_outputs(alloc, text, outputs)?;
    text.push_str("\n")?;
    Ok(())
}

/// The inputs, each after a comma.
fn later_inputs(alloc: Global, text: &mut String, inputs: &[Port]) -> Result<(), AllocError>
    ensures { OnOk result (string_bytes text.new ≡ string_bytes text.old ++ later_ports (map input_text inputs.now)) }
{
    for input in inputs {
        later_input(alloc, text, input)?;
    }
    Ok(())
}

/// The outputs, each after a comma.
fn later_outputs(alloc: Global, text: &mut String, outputs: &[Port]) -> Result<(), AllocError>
    ensures { OnOk result (string_bytes text.new ≡ string_bytes text.old ++ later_ports (map output_text outputs.now)) }
{
    for output in outputs {
        later_output(alloc, text, output)?;
    }
    Ok(())
}

fn later_input(alloc: Global, text: &mut String, input: &Port) -> Result<(), AllocError>
    ensures { OnOk result (string_bytes text.new ≡ string_bytes text.old ++ later_ports (input_text input.now ∷ [])) }
{
    text.push_str(",\n")?;
    push_input(alloc, text, input)
}

fn later_output(alloc: Global, text: &mut String, output: &Port) -> Result<(), AllocError>
    ensures { OnOk result (string_bytes text.new ≡ string_bytes text.old ++ later_ports (output_text output.now ∷ [])) }
{
    text.push_str(",\n")?;
    push_output(alloc, text, output)
}

fn push_input(alloc: Global, text: &mut String, input: &Port) -> Result<(), AllocError>
    ensures { OnOk result (string_bytes text.new ≡ string_bytes text.old ++ input_text input.now) }
{
    text.push_str("  input ")?;
    push_type(text, input.ty)?;
    text.push_str("i_")?;
    push_name(alloc, text, &input.name)
}

fn push_output(alloc: Global, text: &mut String, output: &Port) -> Result<(), AllocError>
    ensures { OnOk result (string_bytes text.new ≡ string_bytes text.old ++ output_text output.now) }
{
    text.push_str("  output ")?;
    push_type(text, output.ty)?;
    text.push_str("o_")?;
    push_name(alloc, text, &output.name)
}

/// The registers and the wires.
fn nets(alloc: Global, text: &mut String, m: &VModule) -> Result<(), AllocError>
    ensures { OnOk result (string_bytes text.new ≡ string_bytes text.old ++ joined (net_lines m.now)) }
{
    let pen = Pen {
        alloc,
        inputs: m.inputs.as_slice(),
    };
    registers(text, m.regs.as_slice())?;
    wires(&pen, text, m.wires.as_slice())?;
    Ok(())
}

/// A declaration for each register.
fn registers(text: &mut String, regs: &[Value]) -> Result<(), AllocError>
    ensures { OnOk result (string_bytes text.new ≡ string_bytes text.old ++ joined (numbered register_lines 0 regs.now)) }
{
    for (number, value) in regs.iter().enumerate() {
        register(text, number, value.ty())?;
    }
    Ok(())
}

fn register(text: &mut String, number: usize, ty: Ty) -> Result<(), AllocError>
    ensures { OnOk result (string_bytes text.new ≡ string_bytes text.old ++ joined (register_line number ty ∷ [])) }
{
    text.push_str("  reg ")?;
    push_type(text, ty)?;
    writeln!(text, "r_{number};")
}

/// A declaration and an assignment for each wire.
fn wires(pen: &Pen<'_>, text: &mut String, wires: &[(Ty, Rhs)]) -> Result<(), AllocError>
    ensures { OnOk result (string_bytes text.new ≡ string_bytes text.old ++ joined (numbered (wire_lines pen.now.inputs.now) 0 wires.now)) }
{
    for (number, (ty, right)) in wires.iter().enumerate() {
        wire(text, number, *ty)?;
        assign(pen, text, number, *right)?;
    }
    Ok(())
}

fn wire(text: &mut String, number: usize, ty: Ty) -> Result<(), AllocError>
    ensures { OnOk result (string_bytes text.new ≡ string_bytes text.old ++ joined (wire_line number ty ∷ [])) }
{
    text.push_str("  wire ")?;
    push_type(text, ty)?;
    writeln!(text, "w_{number};")
}

fn assign(pen: &Pen<'_>, text: &mut String, number: usize, right: Rhs) -> Result<(), AllocError>
    ensures { OnOk result (string_bytes text.new ≡ string_bytes text.old ++ joined (assign_line pen.now.inputs.now number right ∷ [])) }
{
    write!(text, "  assign w_{number} = ")?;
    pen.right_side(text, right)?;
    text.push_str(";\n")?;
    Ok(())
}

/// What drives the outputs, and what the registers hold and take.
fn behavior(alloc: Global, text: &mut String, m: &VModule) -> Result<(), AllocError>
    ensures { OnOk result (string_bytes text.new ≡ string_bytes text.old ++ joined (behavior_lines m.now)) }
{
    let pen = Pen {
        alloc,
        inputs: m.inputs.as_slice(),
    };
    outputs(&pen, text, m.outputs.as_slice(), m.outs.as_slice())?;
    initial(text, m.regs.as_slice())?;
    clock(&pen, text, m.nexts.as_slice())?;
    Ok(())
}

/// An assignment for each output.
fn outputs(pen: &Pen<'_>, text: &mut String, ports: &[Port], nets: &[Ref]) -> Result<(), AllocError>
    ensures { OnOk result (string_bytes text.new ≡ string_bytes text.old ++ joined (output_lines pen.now.inputs.now ports.now nets.now)) }
{
    for (port, net) in ports.iter().zip(nets) {
        output(pen, text, port, *net)?;
    }
    Ok(())
}

fn output(pen: &Pen<'_>, text: &mut String, port: &Port, net: Ref) -> Result<(), AllocError>
    ensures { OnOk result (string_bytes text.new ≡ string_bytes text.old ++ joined (output_line pen.now.inputs.now port.now net ∷ [])) }
{
    text.push_str("  assign o_")?;
    push_name(pen.alloc, text, &port.name)?;
    text.push_str(" = ")?;
    pen.net(text, net)?;
    text.push_str(";\n")?;
    Ok(())
}

/// The registers' initial values.
fn initial(text: &mut String, regs: &[Value]) -> Result<(), AllocError>
    ensures { OnOk result (string_bytes text.new ≡ string_bytes text.old ++ joined (initial_block regs.now)) }
{
    text.push_str("  initial begin\n")?;
    initial_values(text, regs)?;
    text.push_str("  end\n")?;
    Ok(())
}

fn initial_values(text: &mut String, regs: &[Value]) -> Result<(), AllocError>
    ensures { OnOk result (string_bytes text.new ≡ string_bytes text.old ++ joined (numbered initial_lines 0 regs.now)) }
{
    for (number, value) in regs.iter().enumerate() {
        initial_value(text, number, *value)?;
    }
    Ok(())
}

fn initial_value(text: &mut String, number: usize, value: Value) -> Result<(), AllocError>
    ensures { OnOk result (string_bytes text.new ≡ string_bytes text.old ++ joined (initial_line number value ∷ [])) }
{
    write!(text, "    r_{number} = ")?;
    push_constant(text, value)?;
    text.push_str(";\n")
}

/// What the registers take at the clock.
fn clock(pen: &Pen<'_>, text: &mut String, nexts: &[Ref]) -> Result<(), AllocError>
    ensures { OnOk result (string_bytes text.new ≡ string_bytes text.old ++ joined (clock_block pen.now.inputs.now nexts.now)) }
{
    text.push_str("  always @(posedge clk) begin\n")?;
    next_values(pen, text, nexts)?;
    text.push_str("  end\n")?;
    Ok(())
}

fn next_values(pen: &Pen<'_>, text: &mut String, nexts: &[Ref]) -> Result<(), AllocError>
    ensures { OnOk result (string_bytes text.new ≡ string_bytes text.old ++ joined (numbered (next_lines pen.now.inputs.now) 0 nexts.now)) }
{
    for (number, net) in nexts.iter().enumerate() {
        next_value(pen, text, number, *net)?;
    }
    Ok(())
}

fn next_value(pen: &Pen<'_>, text: &mut String, number: usize, net: Ref) -> Result<(), AllocError>
    ensures { OnOk result (string_bytes text.new ≡ string_bytes text.old ++ joined (next_line pen.now.inputs.now number net ∷ [])) }
{
    write!(text, "    r_{number} <= ")?;
    pen.net(text, net)?;
    text.push_str(";\n")
}
