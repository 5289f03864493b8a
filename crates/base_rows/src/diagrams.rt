//! What no clause says: that calls succeed where there is memory, values that were worked by hand,
//! and what a table is after a call that found no memory.

use qz_dd::{DdId, DdOp, Diagrams};
use std::alloc::{AllocError, Global};
use std::process::Abort;
use std::test::Fail;

fn var(rt: &impl Abort, alloc: Global, d: &mut Diagrams, v: u32) -> Result<DdId, AllocError> {
    assert!(rt; v < d.vars());
    d.var(alloc, v)
}

fn apply(
    rt: &impl Abort,
    alloc: Global,
    d: &mut Diagrams,
    op: DdOp,
    a: DdId,
    b: DdId,
) -> Result<DdId, AllocError> {
    assert!(rt; d.contains(a));
    assert!(rt; d.contains(b));
    d.apply(alloc, op, a, b)
}

fn ite(
    rt: &impl Abort,
    alloc: Global,
    d: &mut Diagrams,
    c: DdId,
    a: DdId,
    b: DdId,
) -> Result<DdId, AllocError> {
    assert!(rt; d.contains(c));
    assert!(rt; d.contains(a));
    assert!(rt; d.contains(b));
    d.ite(alloc, c, a, b)
}

fn eval(rt: &impl Abort, d: &Diagrams, f: DdId, bits: &[bool]) -> bool {
    assert!(rt; d.contains(f));
    assert!(rt; bits.len() == d.vars() as usize);
    d.eval(f, bits)
}

fn least_one(rt: &impl Abort, d: &Diagrams, f: DdId, bits: &mut [bool]) -> bool {
    assert!(rt; d.contains(f));
    assert!(rt; bits.len() == d.vars() as usize);
    d.least_one(f, bits)
}

fn are_equal(rt: &impl Abort, d: &Diagrams, f: DdId, g: DdId) -> bool {
    assert!(rt; d.contains(f));
    assert!(rt; d.contains(g));
    d.are_equal(f, g)
}

fn operand(rt: &impl Abort, stack: &mut Vec<DdId>) -> DdId {
    stack.pop().expect(rt, "a formula with its operands")
}

/// What a sign of a formula stands for, whose operands are on the stack.
fn sign(
    rt: &impl Abort,
    alloc: Global,
    d: &mut Diagrams,
    stack: &mut Vec<DdId>,
    sign: char,
) -> Result<DdId, AllocError> {
    match sign {
        '0' => Ok(d.constant(false)),
        '1' => Ok(d.constant(true)),
        'x' => var(rt, alloc, d, 0),
        'y' => var(rt, alloc, d, 1),
        'z' => var(rt, alloc, d, 2),
        '?' => {
            let b = operand(rt, stack);
            let a = operand(rt, stack);
            let c = operand(rt, stack);
            ite(rt, alloc, d, c, a, b)
        }
        _ => {
            let op = match sign {
                '&' => DdOp::And,
                '|' => DdOp::Or,
                _ => DdOp::Xor,
            };
            let b = operand(rt, stack);
            let a = operand(rt, stack);
            apply(rt, alloc, d, op, a, b)
        }
    }
}

/// The function of a formula in x, y and z, which are variables 0, 1 and 2, with each operation after
/// its operands: `&`, `|`, `^`, and `?` after a condition and the two that it chooses from.
fn function(
    rt: &impl Abort,
    alloc: Global,
    d: &mut Diagrams,
    formula: &str,
) -> Result<DdId, AllocError> {
    let mut stack = Vec::new(alloc);
    for c in formula.chars() {
        let f = sign(rt, alloc, d, &mut stack, c)?;
        stack.push(f)?;
    }
    Ok(operand(rt, &mut stack))
}

/// The assignments of x, y and z.
const ASSIGNMENTS: [[bool; 3]; 8] = [
    [false, false, false],
    [false, false, true],
    [false, true, false],
    [false, true, true],
    [true, false, false],
    [true, false, true],
    [true, true, false],
    [true, true, true],
];

/// A formula's values at the assignments in their order, and its least bits.
const FUNCTIONS: [(&str, &str, Option<[bool; 3]>); 11] = [
    ("0", "00000000", None),
    ("1", "11111111", Some([false, false, false])),
    ("x", "00001111", Some([true, false, false])),
    ("z", "01010101", Some([false, false, true])),
    ("xy&", "00000011", Some([true, true, false])),
    ("xy|", "00111111", Some([false, true, false])),
    ("xy^", "00111100", Some([false, true, false])),
    ("xyz?", "01010011", Some([false, false, true])),
    ("xzxy&?", "00000101", Some([true, false, true])),
    ("xy&z|", "01010111", Some([false, false, true])),
    ("x1^y1^&", "11000000", Some([false, false, false])),
];

#[test]
fn functions_of_three_variables(rt: HostRuntime) -> Result<(), Fail> {
    let mut d = Diagrams::new(rt.alloc(), 3)?;
    for (formula, values, least) in FUNCTIONS {
        let f = function(&rt, rt.alloc(), &mut d, formula)?;
        for (bits, value) in ASSIGNMENTS.iter().zip(values.chars()) {
            assert!(rt; eval(&rt, &d, f, bits) == (value == '1'), "{formula}");
        }
        let before = [true, false, true];
        let mut bits = before;
        assert!(rt;
            least_one(&rt, &d, f, &mut bits) == least.is_some(),
            "{formula}"
        );
        assert!(rt; bits == least.unwrap_or(before), "{formula}");
    }
    Ok(())
}

/// Formulas of the same function.
const EQUAL: [(&str, &str); 7] = [
    ("xy&", "yx&"),
    ("xy&1^", "x1^y1^|"),
    ("xyz^^yz^^", "x"),
    ("xyz?", "xy&x1^z&|"),
    ("xx1^|", "1"),
    ("xx1^&", "0"),
    ("xy1^y?", "1xy^^1^"),
];

#[test]
fn equal_functions_have_equal_numbers(rt: HostRuntime) -> Result<(), Fail> {
    let mut d = Diagrams::new(rt.alloc(), 3)?;
    for (one, other) in EQUAL {
        let f = function(&rt, rt.alloc(), &mut d, one)?;
        let g = function(&rt, rt.alloc(), &mut d, other)?;
        assert!(rt; are_equal(&rt, &d, f, g), "{one} and {other}");
    }
    Ok(())
}

/// The parity of three variables has five nodes. One of them is that of z, and on the way to it here
/// those of x and y are made as well.
#[test]
fn nodes_of_a_parity(rt: HostRuntime) -> Result<(), Fail> {
    let mut d = Diagrams::new(rt.alloc(), 3)?;
    function(&rt, rt.alloc(), &mut d, "xyz^^")?;
    assert!(rt; d.node_count() == 7);
    Ok(())
}

/// That all of so many variables are true, which is a chain as deep as there are variables.
fn all_true(
    rt: &impl Abort,
    alloc: Global,
    d: &mut Diagrams,
    vars: u32,
) -> Result<DdId, AllocError> {
    let mut all = d.constant(true);
    for v in (0..vars).rev() {
        let x = var(rt, alloc, d, v)?;
        all = apply(rt, alloc, d, DdOp::And, x, all)?;
    }
    Ok(all)
}

#[test]
fn chain_of_100_000_variables(rt: HostRuntime) -> Result<(), Fail> {
    let alloc = rt.alloc();
    let mut d = Diagrams::new(alloc, 100_000)?;
    let all = all_true(&rt, alloc, &mut d, 100_000)?;
    let yes = d.constant(true);
    let negated = apply(&rt, alloc, &mut d, DdOp::Xor, all, yes)?;
    let bits = vec![in alloc; true; 100_000]?;
    assert!(rt; eval(&rt, &d, all, bits.as_slice()));
    assert!(rt; !eval(&rt, &d, negated, bits.as_slice()));
    Ok(())
}

/// The function that f and variable v differ.
fn with_variable(
    rt: &impl Abort,
    alloc: Global,
    d: &mut Diagrams,
    f: DdId,
    v: u32,
) -> Result<DdId, AllocError> {
    let x = var(rt, alloc, d, v)?;
    apply(rt, alloc, d, DdOp::Xor, f, x)
}

/// Where a call finds no memory, numbers keep their functions, and the same call answers later on. It
/// tells nothing unless allocations are made to fail, as `rt try --test --fail-alloc N` does.
#[test]
fn functions_stay_where_memory_runs_out(rt: HostRuntime) -> Result<(), Fail> {
    let alloc = rt.alloc();
    let mut d = Diagrams::new(alloc, 40)?;
    let bits = vec![in alloc; true; 40]?;
    let mut parity = d.constant(false);
    let mut parities = vec![in alloc; parity]?;
    for v in 0..40 {
        parity = match with_variable(&rt, alloc, &mut d, parity, v) {
            Ok(f) => f,
            Err(_) => with_variable(&rt, alloc, &mut d, parity, v)?,
        };
        parities.push(parity)?;
        for (k, f) in parities.iter().enumerate() {
            assert!(rt;
                eval(&rt, &d, *f, bits.as_slice()) == (k % 2 == 1),
                "{k} of {v}"
            );
        }
    }
    Ok(())
}
