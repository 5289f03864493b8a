//! Modules of any size.

use anyhow::{Context, Result};
use qz_syntax::{Name, Port};
use qz_values::{Op2, Ty, Value};
use qz_verilog::{Ref, Rhs, VModule};
use sqlite_items::Items;
use std::alloc::Global;

const BYTE: Ty = Ty::Bv(8);

const WORD: Ty = Ty::Bv(64);

/// An input, a register and so many wires of 8 bits. The first wire is the sum of both, and each later
/// one joins the wire before it with the input by `^`. The last wire is the output and what the register
/// takes.
pub fn chain(alloc: Global, wires: u32) -> Result<VModule> {
    let mut all = Vec::new(alloc);
    all.push((BYTE, Rhs::Bin(Op2::Add, Ref::Input(0), Ref::Reg(0))))?;
    for number in 1..wires {
        let before = Ref::Wire(u64::from(number - 1));
        all.push((BYTE, Rhs::Bin(Op2::Xor, before, Ref::Input(0))))?;
    }
    let last = Ref::Wire(u64::from(wires.saturating_sub(1)));
    Ok(VModule {
        name: name(alloc, "Chain")?,
        inputs: ports(alloc, &[("i", BYTE)])?,
        outputs: ports(alloc, &[("o", BYTE)])?,
        regs: values(alloc, &[(BYTE, 1)])?,
        wires: Items::from_vec(all),
        outs: Items::from_slice(alloc, &[last])?,
        nexts: Items::from_slice(alloc, &[last])?,
    })
}

/// A counter of 64 bits, which begins at 0.
pub fn counter(alloc: Global) -> Result<VModule> {
    let one = Value::new(WORD, 1).context("1")?;
    let wires = [
        (WORD, Rhs::Const(one)),
        (WORD, Rhs::Bin(Op2::Add, Ref::Reg(0), Ref::Wire(0))),
    ];
    Ok(VModule {
        name: name(alloc, "Counter")?,
        inputs: Items::new(alloc),
        outputs: ports(alloc, &[("o", WORD)])?,
        regs: values(alloc, &[(WORD, 0)])?,
        wires: Items::from_slice(alloc, &wires)?,
        outs: Items::from_slice(alloc, &[Ref::Reg(0)])?,
        nexts: Items::from_slice(alloc, &[Ref::Wire(1)])?,
    })
}

fn name(alloc: Global, text: &str) -> Result<Name> {
    Name::new(alloc, text)?.context("a name")
}

fn ports(alloc: Global, all: &[(&str, Ty)]) -> Result<Items<Port>> {
    let mut ports = Items::new(alloc);
    for (text, ty) in all {
        ports.push(Port {
            name: name(alloc, text)?,
            ty: *ty,
        })?;
    }
    Ok(ports)
}

fn values(alloc: Global, all: &[(Ty, u64)]) -> Result<Items<Value>> {
    let mut values = Items::new(alloc);
    for (ty, bits) in all {
        values.push(Value::new(*ty, *bits).context("a value")?)?;
    }
    Ok(values)
}
