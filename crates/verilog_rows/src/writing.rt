//! Texts worked out by hand.

use qz_syntax::{Name, Port};
use qz_values::{Op2, Ty, Value};
use qz_verilog::{Ref, Rhs, VModule, validate};
use qz_vtext::write_v;
use sqlite_items::Items;
use std::alloc::Global;
use std::test::Fail;

const TOGGLE: &str = "module q_T(
  input clk,
  input i_a,
  output o_o
);
  reg r_0;
  wire w_0;
  assign w_0 = i_a ^ r_0;
  assign o_o = r_0;
  initial begin
    r_0 = 1'b0;
  end
  always @(posedge clk) begin
    r_0 <= w_0;
  end
endmodule
";

const SWAP: &str = "module q_T(
  input clk,
  output o_a,
  output o_b
);
  reg r_0;
  reg r_1;
  assign o_a = r_0;
  assign o_b = r_1;
  initial begin
    r_0 = 1'b1;
    r_1 = 1'b0;
  end
  always @(posedge clk) begin
    r_0 <= r_1;
    r_1 <= r_0;
  end
endmodule
";

/// Each form of right side, at 1, 8 and 64 bits.
const FORMS: &str = "module q_$e9$t$1d400$_1(
  input clk,
  input i_a,
  input i_c,
  input [0:0] i_d,
  input [7:0] i_y$df$,
  input [63:0] i_w,
  output [7:0] o_o,
  output [0:0] o_a$aa$
);
  reg [63:0] r_0;
  wire w_0;
  assign w_0 = 1'b1;
  wire [0:0] w_1;
  assign w_1 = 1'd1;
  wire [7:0] w_2;
  assign w_2 = 8'd250;
  wire [63:0] w_3;
  assign w_3 = 64'd18446744073709551615;
  wire w_4;
  assign w_4 = ~i_a;
  wire [7:0] w_5;
  assign w_5 = ~i_y$df$;
  wire w_6;
  assign w_6 = i_a & i_c;
  wire [0:0] w_7;
  assign w_7 = i_d | w_1;
  wire [63:0] w_8;
  assign w_8 = i_w ^ r_0;
  wire [7:0] w_9;
  assign w_9 = i_y$df$ + w_2;
  wire [63:0] w_10;
  assign w_10 = w_3 - i_w;
  wire w_11;
  assign w_11 = i_a == w_0;
  wire w_12;
  assign w_12 = w_9 != w_2;
  wire w_13;
  assign w_13 = i_d < w_1;
  wire w_14;
  assign w_14 = i_w <= w_3;
  wire w_15;
  assign w_15 = i_d > w_1;
  wire w_16;
  assign w_16 = w_5 >= w_2;
  wire [7:0] w_17;
  assign w_17 = i_c ? w_5 : w_9;
  wire w_18;
  assign w_18 = i_w[63];
  wire w_19;
  assign w_19 = i_d[0];
  wire [0:0] w_20;
  assign w_20 = i_d[0:0];
  wire [7:0] w_21;
  assign w_21 = i_w[63:56];
  wire [8:0] w_22;
  assign w_22 = {i_d, i_y$df$};
  assign o_o = w_17;
  assign o_a$aa$ = w_20;
  initial begin
    r_0 = 64'd9223372036854775808;
  end
  always @(posedge clk) begin
    r_0 <= w_10;
  end
endmodule
";

const BIT: Ty = Ty::Bv(1);

const BYTE: Ty = Ty::Bv(8);

const WORD: Ty = Ty::Bv(64);

/// A module's parts, in plain lists.
#[derive(Clone, Copy)]
struct Parts<'t> {
    name: &'t str,
    inputs: &'t [(&'t str, Ty)],
    outputs: &'t [(&'t str, Ty)],
    regs: &'t [(Ty, u64)],
    wires: &'t [(Ty, Rhs)],
    outs: &'t [Ref],
    nexts: &'t [Ref],
}

fn name(alloc: Global, text: &str) -> Result<Name, Fail> {
    Ok(Name::new(alloc, text)?.ok_or("no name")?)
}

fn value(ty: Ty, bits: u64) -> Result<Value, Fail> {
    Ok(Value::new(ty, bits).ok_or("no value")?)
}

fn ports(alloc: Global, all: &[(&str, Ty)]) -> Result<Items<Port>, Fail> {
    let mut ports = Items::new(alloc);
    for (text, ty) in all {
        ports.push(Port {
            name: name(alloc, text)?,
            ty: *ty,
        })?;
    }
    Ok(ports)
}

fn values(alloc: Global, all: &[(Ty, u64)]) -> Result<Items<Value>, Fail> {
    let mut values = Items::new(alloc);
    for (ty, bits) in all {
        values.push(value(*ty, *bits)?)?;
    }
    Ok(values)
}

fn module(alloc: Global, parts: Parts) -> Result<VModule, Fail> {
    Ok(VModule {
        name: name(alloc, parts.name)?,
        inputs: ports(alloc, parts.inputs)?,
        outputs: ports(alloc, parts.outputs)?,
        regs: values(alloc, parts.regs)?,
        wires: Items::from_slice(alloc, parts.wires)?,
        outs: Items::from_slice(alloc, parts.outs)?,
        nexts: Items::from_slice(alloc, parts.nexts)?,
    })
}

/// The text of a valid module with these parts.
fn written(alloc: Global, parts: Parts) -> Result<Vec<u8>, Fail> {
    let m = module(alloc, parts)?;
    if !validate(&m) {
        return Err(Fail::from("not valid"));
    }
    Ok(write_v(alloc, &m)?)
}

#[test]
fn small_modules_are_written(rt: HostRuntime) -> Result<(), Fail> {
    let toggle = Parts {
        name: "T",
        inputs: &[("a", Ty::Bool)],
        outputs: &[("o", Ty::Bool)],
        regs: &[(Ty::Bool, 0)],
        wires: &[(Ty::Bool, Rhs::Bin(Op2::Xor, Ref::Input(0), Ref::Reg(0)))],
        outs: &[Ref::Reg(0)],
        nexts: &[Ref::Wire(0)],
    };
    let swap = Parts {
        name: "T",
        inputs: &[],
        outputs: &[("a", Ty::Bool), ("b", Ty::Bool)],
        regs: &[(Ty::Bool, 1), (Ty::Bool, 0)],
        wires: &[],
        outs: &[Ref::Reg(0), Ref::Reg(1)],
        nexts: &[Ref::Reg(1), Ref::Reg(0)],
    };
    for (parts, text) in [(toggle, TOGGLE), (swap, SWAP)] {
        let bytes = written(rt.alloc(), parts)?;
        assert!(rt; bytes.as_slice() == text.as_bytes());
    }
    Ok(())
}

const A: Ref = Ref::Input(0);

const C: Ref = Ref::Input(1);

const D: Ref = Ref::Input(2);

const Y: Ref = Ref::Input(3);

const W: Ref = Ref::Input(4);

/// The wires of `FORMS` after the constants.
const OPERATIONS: [(Ty, Rhs); 19] = [
    (Ty::Bool, Rhs::Invert(A)),
    (BYTE, Rhs::Invert(Y)),
    (Ty::Bool, Rhs::Bin(Op2::And, A, C)),
    (BIT, Rhs::Bin(Op2::Or, D, Ref::Wire(1))),
    (WORD, Rhs::Bin(Op2::Xor, W, Ref::Reg(0))),
    (BYTE, Rhs::Bin(Op2::Add, Y, Ref::Wire(2))),
    (WORD, Rhs::Bin(Op2::Sub, Ref::Wire(3), W)),
    (Ty::Bool, Rhs::Bin(Op2::Eq, A, Ref::Wire(0))),
    (Ty::Bool, Rhs::Bin(Op2::Ne, Ref::Wire(9), Ref::Wire(2))),
    (Ty::Bool, Rhs::Bin(Op2::Lt, D, Ref::Wire(1))),
    (Ty::Bool, Rhs::Bin(Op2::Le, W, Ref::Wire(3))),
    (Ty::Bool, Rhs::Bin(Op2::Gt, D, Ref::Wire(1))),
    (Ty::Bool, Rhs::Bin(Op2::Ge, Ref::Wire(5), Ref::Wire(2))),
    (BYTE, Rhs::Choose(C, Ref::Wire(5), Ref::Wire(9))),
    (Ty::Bool, Rhs::Bit(W, 63)),
    (Ty::Bool, Rhs::Bit(D, 0)),
    (BIT, Rhs::Slice(D, 0, 0)),
    (BYTE, Rhs::Slice(W, 63, 56)),
    (Ty::Bv(9), Rhs::Concat(D, Y)),
];

#[test]
fn each_form_is_written(rt: HostRuntime) -> Result<(), Fail> {
    let mut wires = Vec::new(rt.alloc());
    for (ty, bits) in [(Ty::Bool, 1), (BIT, 1), (BYTE, 250), (WORD, u64::MAX)] {
        wires.push((ty, Rhs::Const(value(ty, bits)?)))?;
    }
    wires.extend_from_slice(&OPERATIONS)?;
    let parts = Parts {
        name: "ét𝐀_1",
        inputs: &[
            ("a", Ty::Bool),
            ("c", Ty::Bool),
            ("d", BIT),
            ("yß", BYTE),
            ("w", WORD),
        ],
        outputs: &[("o", BYTE), ("aª", BIT)],
        regs: &[(WORD, 1 << 63)],
        wires: wires.as_slice(),
        outs: &[Ref::Wire(17), Ref::Wire(20)],
        nexts: &[Ref::Wire(10)],
    };
    let bytes = written(rt.alloc(), parts)?;
    assert!(rt; bytes.as_slice() == FORMS.as_bytes());
    Ok(())
}
