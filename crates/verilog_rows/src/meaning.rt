//! Modules, clocks and right sides worked out by hand.

use qz_syntax::{Name, Port};
use qz_values::{Op2, Ty, Value};
use qz_verilog::{
    Ref, Rhs, Sim, VModule, a_valid_module_keeps_types, a_valid_module_runs_once,
    a_valid_module_settles_once, validate,
};
use sqlite_items::Items;
use std::alloc::Global;
use std::test::Fail;

const MAX: u64 = u64::MAX;

const TOP: u64 = 1 << 63;

const DIGIT: Ty = Ty::Bv(1);

const BYTE: Ty = Ty::Bv(8);

const WORD: Ty = Ty::Bv(64);

const A: Ref = Ref::Input(0);

const B: Ref = Ref::Input(1);

const C: Ref = Ref::Input(2);

const LONG: Ref = Ref::Reg(1);

/// A module's parts, in plain lists.
#[derive(Clone, Copy)]
struct Parts<'t> {
    inputs: &'t [(&'t str, Ty)],
    outputs: &'t [(&'t str, Ty)],
    regs: &'t [(Ty, u64)],
    wires: &'t [(Ty, Rhs)],
    outs: &'t [Ref],
    nexts: &'t [Ref],
}

fn name(alloc: Global, text: &str) -> Result<Name, Fail> {
    Ok(Name::new(alloc, text)?.ok_or("no name")?)
}

fn value(ty: Ty, bits: u64) -> Result<Value, Fail> {
    Ok(Value::new(ty, bits).ok_or("no value")?)
}

fn ports(alloc: Global, all: &[(&str, Ty)]) -> Result<Items<Port>, Fail> {
    let mut ports = Items::new(alloc);
    for (text, ty) in all {
        ports.push(Port {
            name: name(alloc, text)?,
            ty: *ty,
        })?;
    }
    Ok(ports)
}

fn values(alloc: Global, all: &[(Ty, u64)]) -> Result<Items<Value>, Fail> {
    let mut values = Items::new(alloc);
    for (ty, bits) in all {
        values.push(value(*ty, *bits)?)?;
    }
    Ok(values)
}

fn module(alloc: Global, parts: Parts) -> Result<VModule, Fail> {
    Ok(VModule {
        name: name(alloc, "T")?,
        inputs: ports(alloc, parts.inputs)?,
        outputs: ports(alloc, parts.outputs)?,
        regs: values(alloc, parts.regs)?,
        wires: Items::from_slice(alloc, parts.wires)?,
        outs: Items::from_slice(alloc, parts.outs)?,
        nexts: Items::from_slice(alloc, parts.nexts)?,
    })
}

fn is_valid(alloc: Global, parts: Parts) -> Result<bool, Fail> {
    Ok(validate(&module(alloc, parts)?))
}

/// One clock, whose outputs are set.
fn clocked(sim: &mut Sim, inputs: &[u64], outputs: &mut [u64]) -> Result<(), Fail> {
    if !sim.takes(inputs) || outputs.len() != sim.circuit().outputs.len() {
        return Err(Fail::from("a row that doesn't fit"));
    }
    sim.clock(inputs, outputs);
    Ok(())
}

/// A valid module before its first clock.
fn started(alloc: Global, parts: Parts) -> Result<Sim, Fail> {
    let m = module(alloc, parts)?;
    if !validate(&m) {
        return Err(Fail::from("not valid"));
    }
    Ok(Sim::make(alloc, m)?)
}

/// `o` is what the register held, and the register takes `a ^ r_0`.
#[test]
fn a_register_that_toggles(rt: HostRuntime) -> Result<(), Fail> {
    let mut sim = started(
        rt.alloc(),
        Parts {
            inputs: &[("a", Ty::Bool)],
            outputs: &[("o", Ty::Bool)],
            regs: &[(Ty::Bool, 0)],
            wires: &[(Ty::Bool, Rhs::Bin(Op2::Xor, A, Ref::Reg(0)))],
            outs: &[Ref::Reg(0)],
            nexts: &[Ref::Wire(0)],
        },
    )?;
    for (a, o) in [(1, 0), (0, 1), (1, 1), (1, 0), (0, 1)] {
        let mut outputs = [9];
        clocked(&mut sim, &[a], &mut outputs)?;
        assert!(rt; outputs == [o], "{a}");
    }
    assert!(rt; !sim.takes(&[2]) && !sim.takes(&[]) && !sim.takes(&[0, 0]));
    Ok(())
}

/// Two registers that take one another's values.
#[test]
fn registers_that_swap(rt: HostRuntime) -> Result<(), Fail> {
    let mut sim = started(
        rt.alloc(),
        Parts {
            inputs: &[],
            outputs: &[("a", Ty::Bool), ("b", Ty::Bool)],
            regs: &[(Ty::Bool, 1), (Ty::Bool, 0)],
            wires: &[],
            outs: &[Ref::Reg(0), Ref::Reg(1)],
            nexts: &[Ref::Reg(1), Ref::Reg(0)],
        },
    )?;
    for want in [[1, 0], [0, 1], [1, 0], [0, 1]] {
        let mut outputs = [9, 9];
        clocked(&mut sim, &[], &mut outputs)?;
        assert!(rt; outputs == want);
    }
    Ok(())
}

/// What a right side gives of two inputs, the third being `true` or `false`.
fn given(alloc: Global, types: (Ty, Ty), row: &[u64], ty: Ty, right: Rhs) -> Result<u64, Fail> {
    let mut sim = started(
        alloc,
        Parts {
            inputs: &[("a", types.0), ("b", types.1), ("c", Ty::Bool)],
            outputs: &[("o", ty)],
            regs: &[],
            wires: &[(ty, right)],
            outs: &[Ref::Wire(0)],
            nexts: &[],
        },
    )?;
    let mut outputs = [0];
    clocked(&mut sim, row, &mut outputs)?;
    Ok(outputs[0])
}

const OPERATORS: [(Op2, Ty, u64, u64, Ty, u64); 27] = [
    (Op2::And, Ty::Bool, 1, 0, Ty::Bool, 0),
    (Op2::And, DIGIT, 1, 1, DIGIT, 1),
    (Op2::And, BYTE, 0x0f, 0x3c, BYTE, 0x0c),
    (Op2::And, WORD, MAX, TOP, WORD, TOP),
    (Op2::Or, Ty::Bool, 1, 0, Ty::Bool, 1),
    (Op2::Or, DIGIT, 0, 0, DIGIT, 0),
    (Op2::Or, BYTE, 0x0f, 0x30, BYTE, 0x3f),
    (Op2::Or, WORD, TOP, 1, WORD, TOP + 1),
    (Op2::Xor, Ty::Bool, 1, 1, Ty::Bool, 0),
    (Op2::Xor, DIGIT, 1, 0, DIGIT, 1),
    (Op2::Xor, BYTE, 0xff, 0x0f, BYTE, 0xf0),
    (Op2::Xor, WORD, MAX, TOP, WORD, TOP - 1),
    (Op2::Add, DIGIT, 1, 1, DIGIT, 0),
    (Op2::Add, BYTE, 200, 100, BYTE, 44),
    (Op2::Add, WORD, MAX, 1, WORD, 0),
    (Op2::Sub, DIGIT, 0, 1, DIGIT, 1),
    (Op2::Sub, BYTE, 3, 5, BYTE, 254),
    (Op2::Sub, WORD, 0, 1, WORD, MAX),
    (Op2::Eq, Ty::Bool, 0, 0, Ty::Bool, 1),
    (Op2::Eq, BYTE, 7, 8, Ty::Bool, 0),
    (Op2::Ne, Ty::Bool, 0, 0, Ty::Bool, 0),
    (Op2::Ne, WORD, TOP, 0, Ty::Bool, 1),
    (Op2::Lt, DIGIT, 0, 1, Ty::Bool, 1),
    (Op2::Lt, WORD, TOP, 1, Ty::Bool, 0),
    (Op2::Le, BYTE, 7, 7, Ty::Bool, 1),
    (Op2::Gt, WORD, TOP, TOP - 1, Ty::Bool, 1),
    (Op2::Ge, BYTE, 6, 7, Ty::Bool, 0),
];

#[test]
fn operators(rt: HostRuntime) -> Result<(), Fail> {
    for (op, ty, a, b, result, want) in OPERATORS {
        let found = given(rt.alloc(), (ty, ty), &[a, b, 0], result, Rhs::Bin(op, A, B))?;
        assert!(rt; found == want, "{op:?} of {a} and {b}");
    }
    Ok(())
}

const RIGHT_SIDES: [(Rhs, (Ty, Ty), [u64; 3], Ty, u64); 14] = [
    (Rhs::Invert(C), (BYTE, BYTE), [0, 0, 1], Ty::Bool, 0),
    (Rhs::Invert(A), (DIGIT, BYTE), [0, 0, 1], DIGIT, 1),
    (Rhs::Invert(A), (BYTE, BYTE), [0x0f, 0, 1], BYTE, 0xf0),
    (Rhs::Invert(A), (WORD, BYTE), [1, 0, 1], WORD, MAX - 1),
    (Rhs::Choose(C, A, B), (BYTE, BYTE), [3, 4, 1], BYTE, 3),
    (Rhs::Choose(C, A, B), (WORD, WORD), [3, TOP, 0], WORD, TOP),
    (Rhs::Bit(A, 0), (DIGIT, BYTE), [1, 0, 0], Ty::Bool, 1),
    (Rhs::Bit(A, 6), (BYTE, BYTE), [0xbf, 0, 0], Ty::Bool, 0),
    (Rhs::Bit(A, 63), (WORD, BYTE), [TOP, 0, 0], Ty::Bool, 1),
    (Rhs::Slice(A, 0, 0), (DIGIT, BYTE), [1, 0, 0], DIGIT, 1),
    (
        Rhs::Slice(A, 7, 4),
        (BYTE, BYTE),
        [0xa5, 0, 0],
        Ty::Bv(4),
        0xa,
    ),
    (Rhs::Slice(A, 63, 0), (WORD, BYTE), [MAX, 0, 0], WORD, MAX),
    (
        Rhs::Concat(A, B),
        (BYTE, BYTE),
        [0xab, 0xcd, 0],
        Ty::Bv(16),
        0xabcd,
    ),
    (
        Rhs::Concat(A, B),
        (DIGIT, Ty::Bv(63)),
        [1, 5, 0],
        WORD,
        TOP + 5,
    ),
];

#[test]
fn other_right_sides(rt: HostRuntime) -> Result<(), Fail> {
    for (right, types, row, ty, want) in RIGHT_SIDES {
        let found = given(rt.alloc(), types, &row, ty, right)?;
        assert!(rt; found == want, "{right:?}");
    }
    let constant = Rhs::Const(value(WORD, MAX)?);
    let found = given(rt.alloc(), (BYTE, BYTE), &[0, 0, 0], WORD, constant)?;
    assert!(rt; found == MAX);
    Ok(())
}

/// Whether a module with this wire is valid, after inputs of 8, 8 and 1 bits, registers of 1 and 64
/// bits and a wire of 1 bit.
fn may_follow(alloc: Global, ty: Ty, right: Rhs) -> Result<bool, Fail> {
    is_valid(
        alloc,
        Parts {
            inputs: &[("a", BYTE), ("b", BYTE), ("c", Ty::Bool)],
            outputs: &[],
            regs: &[(Ty::Bool, 0), (WORD, 5)],
            wires: &[(Ty::Bool, Rhs::Invert(C)), (ty, right)],
            outs: &[],
            nexts: &[Ref::Wire(0), Ref::Reg(1)],
        },
    )
}

const WIRES: [(Ty, Rhs, bool); 28] = [
    (Ty::Bool, Rhs::Bit(A, 7), true),
    (Ty::Bool, Rhs::Bit(A, 8), false),
    (Ty::Bool, Rhs::Bit(A, 9), false),
    (Ty::Bool, Rhs::Bit(C, 0), false),
    (Ty::Bv(4), Rhs::Slice(A, 7, 4), true),
    (Ty::Bv(5), Rhs::Slice(A, 8, 4), false),
    (Ty::Bv(1), Rhs::Slice(A, 3, 4), false),
    (Ty::Bv(1), Rhs::Slice(A, 7, 7), true),
    (Ty::Bool, Rhs::Slice(A, 7, 7), false),
    (Ty::Bool, Rhs::Bin(Op2::Imp, C, Ref::Wire(0)), false),
    (Ty::Bool, Rhs::Bin(Op2::And, C, Ref::Wire(0)), true),
    (BYTE, Rhs::Bin(Op2::Add, A, C), false),
    (Ty::Bool, Rhs::Bin(Op2::Add, C, C), false),
    (Ty::Bool, Rhs::Bin(Op2::Lt, A, B), true),
    (BYTE, Rhs::Bin(Op2::Lt, A, B), false),
    (Ty::Bool, Rhs::Bin(Op2::Lt, C, C), false),
    (Ty::Bool, Rhs::Bin(Op2::Eq, C, Ref::Reg(0)), true),
    (Ty::Bool, Rhs::Invert(A), false),
    (BYTE, Rhs::Choose(C, A, B), true),
    (BYTE, Rhs::Choose(A, A, B), false),
    (BYTE, Rhs::Choose(C, A, LONG), false),
    (Ty::Bool, Rhs::Invert(Ref::Wire(1)), false),
    (Ty::Bool, Rhs::Invert(Ref::Wire(MAX)), false),
    (Ty::Bool, Rhs::Invert(Ref::Reg(2)), false),
    (Ty::Bool, Rhs::Invert(Ref::Input(3)), false),
    (Ty::Bv(16), Rhs::Concat(A, B), true),
    (Ty::Bv(72), Rhs::Concat(A, LONG), false),
    (Ty::Bv(9), Rhs::Concat(A, C), false),
];

#[test]
fn valid_right_sides(rt: HostRuntime) -> Result<(), Fail> {
    for (ty, right, want) in WIRES {
        assert!(rt;
            may_follow(rt.alloc(), ty, right)? == want,
            "{right:?} of {ty:?}"
        );
    }
    Ok(())
}

#[test]
fn valid_constants(rt: HostRuntime) -> Result<(), Fail> {
    let constant = Rhs::Const(Value::truth(true));
    assert!(rt; may_follow(rt.alloc(), Ty::Bool, constant)?);
    assert!(rt; !may_follow(rt.alloc(), BYTE, constant)?);
    Ok(())
}

const LONGEST: &str = "a123456789b123456789c123456789d123456789e123456789f123456789g123";

const PORTS: [(&[(&str, Ty)], &[(&str, Ty)], bool); 7] = [
    (
        &[("a", Ty::Bool), ("b", WORD)],
        &[("o", Ty::Bool), (LONGEST, WORD)],
        true,
    ),
    (
        &[("a", Ty::Bool), ("b", WORD)],
        &[("o", Ty::Bool), ("o", WORD)],
        false,
    ),
    (
        &[("a", Ty::Bool), ("b", WORD), ("a", BYTE)],
        &[("o", Ty::Bool), ("p", WORD)],
        false,
    ),
    (
        &[("a", Ty::Bool), ("b", WORD)],
        &[("o", Ty::Bool), ("b", WORD)],
        false,
    ),
    (
        &[("a", Ty::Bool), ("b", WORD), ("c", Ty::Bv(65))],
        &[("o", Ty::Bool), ("p", WORD)],
        false,
    ),
    (
        &[("a", Ty::Bool), ("b", WORD), ("c", Ty::Bv(0))],
        &[("o", Ty::Bool), ("p", WORD)],
        false,
    ),
    (
        &[("a", Ty::Bool), ("b", WORD), ("c", DIGIT)],
        &[("o", Ty::Bool), ("p", WORD)],
        true,
    ),
];

const W: Ref = Ref::Wire(0);

const DRIVERS: [(&[Ref], &[Ref], bool); 9] = [
    (&[W, B], &[A], true),
    (&[W], &[A], false),
    (&[W, B, B], &[A], false),
    (&[B, W], &[A], false),
    (&[Ref::Wire(1), B], &[A], false),
    (&[W, B], &[], false),
    (&[W, B], &[A, A], false),
    (&[W, B], &[B], false),
    (&[W, B], &[Ref::Reg(1)], false),
];

/// A module with a wire that inverts its first input, a bool, and a register of one bit.
const BASE: Parts<'static> = Parts {
    inputs: &[("a", Ty::Bool), ("b", WORD)],
    outputs: &[("o", Ty::Bool), ("p", WORD)],
    regs: &[(Ty::Bool, 0)],
    wires: &[(Ty::Bool, Rhs::Invert(A))],
    outs: &[W, B],
    nexts: &[A],
};

#[test]
fn valid_modules(rt: HostRuntime) -> Result<(), Fail> {
    for (number, (inputs, outputs, want)) in PORTS.into_iter().enumerate() {
        let parts = Parts {
            inputs,
            outputs,
            ..BASE
        };
        assert!(rt; is_valid(rt.alloc(), parts)? == want, "ports {number}");
    }
    for (number, (outs, nexts, want)) in DRIVERS.into_iter().enumerate() {
        let parts = Parts {
            outs,
            nexts,
            ..BASE
        };
        assert!(rt; is_valid(rt.alloc(), parts)? == want, "drivers {number}");
    }
    Ok(())
}

#[test]
fn laws(_rt: HostRuntime) {
    a_valid_module_settles_once();
    a_valid_module_runs_once();
    a_valid_module_keeps_types();
}
