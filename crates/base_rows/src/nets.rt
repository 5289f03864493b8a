//! What no clause says: that calls succeed where there is memory, and knowledge that was worked by
//! hand from the rules of the operators.

use qz_nets::{Net, NetId, NetTable, equal_nets_have_one_number, readings_agree};
use qz_values::{Know, Op1, Op2, Ty, Value};
use std::alloc::{AllocError, Global};
use std::process::Abort;
use std::test::Fail;

const BYTE: Ty = Ty::Bv(8);

fn and(rt: &impl Abort, table: &mut NetTable, a: NetId, b: NetId) -> Result<NetId, AllocError> {
    assert!(rt; a.0 < table.len() && b.0 < table.len());
    assert!(rt; table.ty(a) == Ty::Bool && table.ty(b) == Ty::Bool);
    table.and(a, b)
}

fn or(rt: &impl Abort, table: &mut NetTable, a: NetId, b: NetId) -> Result<NetId, AllocError> {
    assert!(rt; a.0 < table.len() && b.0 < table.len());
    assert!(rt; table.ty(a) == Ty::Bool && table.ty(b) == Ty::Bool);
    table.or(a, b)
}

fn not(rt: &impl Abort, table: &mut NetTable, a: NetId) -> Result<NetId, AllocError> {
    assert!(rt; a.0 < table.len());
    assert!(rt; table.ty(a) == Ty::Bool);
    table.not(a)
}

fn choose(
    rt: &impl Abort,
    table: &mut NetTable,
    c: NetId,
    a: NetId,
    b: NetId,
) -> Result<NetId, AllocError> {
    assert!(rt; c.0 < table.len() && a.0 < table.len() && b.0 < table.len());
    assert!(rt; table.ty(c) == Ty::Bool && table.ty(a) == Ty::Bool && table.ty(b) == Ty::Bool);
    table.choose(c, a, b)
}

fn operand(rt: &impl Abort, stack: &mut Vec<NetId>) -> NetId {
    stack.pop().expect(rt, "a formula with its operands")
}

/// The net of a sign of a formula, whose operands are on the stack.
fn sign(
    rt: &impl Abort,
    table: &mut NetTable,
    stack: &mut Vec<NetId>,
    sign: char,
) -> Result<NetId, AllocError> {
    match sign {
        '0' => table.truth(false),
        '1' => table.truth(true),
        'x' => table.leaf(0, Ty::Bool),
        'y' => table.leaf(1, Ty::Bool),
        '!' => {
            let a = operand(rt, stack);
            not(rt, table, a)
        }
        '?' => {
            let b = operand(rt, stack);
            let a = operand(rt, stack);
            let c = operand(rt, stack);
            choose(rt, table, c, a, b)
        }
        _ => {
            let b = operand(rt, stack);
            let a = operand(rt, stack);
            if sign == '&' {
                and(rt, table, a, b)
            } else {
                or(rt, table, a, b)
            }
        }
    }
}

/// The net of a formula in the leaves x and y, with each operation after its operands.
fn formula(
    rt: &impl Abort,
    alloc: Global,
    table: &mut NetTable,
    text: &str,
) -> Result<NetId, AllocError> {
    let mut stack = Vec::new(alloc);
    for c in text.chars() {
        let id = sign(rt, table, &mut stack, c)?;
        stack.push(id)?;
    }
    Ok(operand(rt, &mut stack))
}

/// What is known of a bool by its letter: nothing (`-`), `f`, `t`, or a contradiction (`#`).
fn known(letter: char) -> Know {
    match letter {
        'f' => Know::Known(Value::truth(false)),
        't' => Know::Known(Value::truth(true)),
        '#' => Know::Clash,
        _ => Know::Unknown,
    }
}

/// What is known of a net, where the leaves have this knowledge.
fn evaluate(
    rt: &impl Abort,
    alloc: Global,
    table: &NetTable,
    leaves: &[Know],
    id: NetId,
) -> Result<Know, AllocError> {
    let mut values = vec![in alloc; Know::Unknown; table.len() as usize]?;
    assert!(rt; table.takes(leaves));
    table.eval_into(leaves, &mut values);
    assert!(rt; (id.0 as usize) < values.len());
    Ok(values[id.0 as usize])
}

/// A formula; how many nets it takes; and what is known of it where nothing, `f`, `t` or a
/// contradiction is known of x (the rows) and of y (the columns).
const FORMULAS: [(&str, u64, &str); 10] = [
    ("xy&", 3, "-f-# fff# -ft# ####"),
    ("xy|", 3, "--t# -ft# ttt# ####"),
    ("x!", 2, "---- tttt ffff ####"),
    ("x!!", 2, "---- ffff tttt ####"),
    ("x1&", 2, "---- ffff tttt ####"),
    ("0x|", 2, "---- ffff tttt ####"),
    ("xx&", 1, "---- ffff tttt ####"),
    ("x0&", 3, "ffff ffff ffff ####"),
    ("xyx!?", 4, "---- tttt -ft# ####"),
    ("1xy?", 3, "---- ffff tttt ####"),
];

#[test]
fn formulas_at_each_knowledge(rt: HostRuntime) -> Result<(), Fail> {
    let alloc = rt.alloc();
    for (text, nets, knows) in FORMULAS {
        let mut table = NetTable::new(alloc);
        let id = formula(&rt, alloc, &mut table, text)?;
        assert_eq!(rt; table.len(), nets);
        let mut letters = knows.chars().filter(|c| *c != ' ');
        for x in "-ft#".chars() {
            for y in "-ft#".chars() {
                let know = evaluate(&rt, alloc, &table, &[known(x), known(y)], id)?;
                assert_eq!(rt; Some(know), letters.next().map(known));
            }
        }
    }
    Ok(())
}

fn sum(table: &mut NetTable) -> Result<NetId, AllocError> {
    let a = table.leaf(0, BYTE)?;
    let b = table.leaf(1, BYTE)?;
    table.add(Net::Bin(Op2::Add, a, b))
}

fn is_less(table: &mut NetTable) -> Result<NetId, AllocError> {
    let a = table.leaf(0, BYTE)?;
    let b = table.leaf(1, BYTE)?;
    table.add(Net::Bin(Op2::Lt, b, a))
}

fn both(table: &mut NetTable) -> Result<NetId, AllocError> {
    let a = table.leaf(0, BYTE)?;
    let b = table.leaf(1, BYTE)?;
    table.add(Net::Concat(a, b))
}

fn inverse(table: &mut NetTable) -> Result<NetId, AllocError> {
    let a = table.leaf(0, BYTE)?;
    table.add(Net::Un(Op1::Invert, a))
}

fn top_bit(table: &mut NetTable) -> Result<NetId, AllocError> {
    let a = table.leaf(0, BYTE)?;
    table.add(Net::Bit(a, 7))
}

fn high_bits(table: &mut NetTable) -> Result<NetId, AllocError> {
    let a = table.leaf(0, BYTE)?;
    table.add(Net::Slice(a, 7, 4))
}

/// Nets over the bytes a and b, which are leaves 0 and 1.
fn of_bytes(table: &mut NetTable) -> Result<[NetId; 6], AllocError> {
    Ok([
        sum(table)?,
        inverse(table)?,
        top_bit(table)?,
        high_bits(table)?,
        both(table)?,
        is_less(table)?,
    ])
}

/// What they are over f1 and 12 (hexadecimal).
const OF_BYTES: [(Ty, u64); 6] = [
    (BYTE, 0x03),
    (BYTE, 0x0e),
    (Ty::Bool, 1),
    (Ty::Bv(4), 0xf),
    (Ty::Bv(16), 0xf112),
    (Ty::Bool, 1),
];

#[test]
fn nets_over_bytes(rt: HostRuntime) -> Result<(), Fail> {
    let alloc = rt.alloc();
    let mut table = NetTable::new(alloc);
    let ids = of_bytes(&mut table)?;
    assert_eq!(rt; of_bytes(&mut table)?, ids);
    assert_eq!(rt; table.len(), 8);
    equal_nets_have_one_number(&table);
    readings_agree(&table);
    let a = Value::new(BYTE, 0xf1).ok_or("no value")?;
    let b = Value::new(BYTE, 0x12).ok_or("no value")?;
    let leaves = [Know::Known(a), Know::Known(b)];
    for (number, (ty, bits)) in OF_BYTES.iter().enumerate() {
        let know = evaluate(&rt, alloc, &table, &leaves, ids[number])?;
        assert_eq!(rt; Some(know), Value::new(*ty, *bits).map(Know::Known));
    }
    Ok(())
}
