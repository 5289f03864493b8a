//! How large a module is: 2 for each node of its tree, and 1 for each loop round the node.

ghost use Rattle.std.specs.Prelude.{◌≡◌, ℕ, min, length};
ghost use Rattle.std.specs.List.{sum_by};
ghost use Rattle.qz_syntax.specs.declared.statements.Stmt.{out-Stmt};
ghost use Rattle.qz_syntax.specs.Numbers.{parts_of};
ghost use Rattle.qz_syntax.specs.Sizes.{expression_nodes, argument_nodes, binding_nodes, own_nodes, loops_inside, units_inside, largest_size, size_of};

use crate::expressions::Expr;
use crate::modules::Module;
use crate::statements::{Arg, Binding, Stmt};

/// The size of a module: over its statements, declarations and expressions the sum of 2 and the
/// number of loops round each. It stops at `2^64 - 1`.
///
/// A loop's condition stands outside that loop. What an assignment or an output argument names is
/// no node, and a call counts without its callee's body.
pub fn size(m: &Module) -> u64
    ensures { result ≡ size_of m.now }
{
    units_inside(&m.body, 0)
}

/// The units of a statement that has so many loops round it.
#[cycle(sizes)]
fn units_inside(s: &Stmt, loops: u64) -> u64
    ensures { result ≡ min (units_inside s.now loops) largest_size }
{
    let own = own_nodes(s).saturating_mul(loops.saturating_add(2));
    let inside = loops_inside(s, loops);
    own.saturating_add(units_of_parts(s, inside))
}

/// The units of the statements in a statement, which have so many loops round them.
#[cycle(sizes)]
fn units_of_parts(s: &Stmt, loops: u64) -> u64
    ensures { result ≡ min (sum_by (λ part. units_inside part loops) (parts_of (out-Stmt s.now))) largest_size }
{
    match s {
        Stmt::Nothing | Stmt::Assign(..) | Stmt::Delayed(..) | Stmt::Pause(_) | Stmt::Call(..) => 0,
        Stmt::Seq(parts) | Stmt::Par(parts) => units_of_all(parts.as_slice(), loops),
        Stmt::If(_, first, second) => units_inside(first.get(), loops).saturating_add(units_inside(
            second.get(),
            loops,
        )),
        Stmt::Loop(_, body, _) => units_inside(body.get(), loops),
        Stmt::Abort(_, body, _)
        | Stmt::Suspend(_, _, body, _)
        | Stmt::Scope(_, body)
        | Stmt::Bind(_, body) => { units_inside(body.get(), loops) }
    }
}

/// The units of some statements that have so many loops round them.
#[cycle(sizes)]
fn units_of_all(parts: &[Stmt], loops: u64) -> u64
    ensures { result ≡ min (sum_by (λ part. units_inside part loops) parts.now) largest_size }
{
    let mut units = 0u64;
    for part in parts {
        units = units.saturating_add(units_inside(part, loops));
    }
    units
}

/// How many loops are round a statement's parts, where it has so many round itself.
fn loops_inside(s: &Stmt, loops: u64) -> u64
    ensures { result ≡ min (loops_inside (out-Stmt s.now) loops) largest_size }
{
    match s {
        Stmt::Loop(..) => loops.saturating_add(1),
        _ => loops,
    }
}

/// A statement's own node, those of its expressions and those of its declarations.
fn own_nodes(s: &Stmt) -> u64
    ensures { result ≡ min (own_nodes (out-Stmt s.now)) largest_size }
{
    let beside = match s {
        Stmt::Nothing | Stmt::Pause(_) | Stmt::Seq(_) | Stmt::Par(_) => 0,
        Stmt::Assign(_, value) | Stmt::Delayed(_, value) => expression_nodes(value),
        Stmt::If(condition, _, _) => expression_nodes(condition),
        Stmt::Loop(_, _, condition) => expression_nodes(condition),
        Stmt::Abort(_, _, condition) | Stmt::Suspend(_, _, _, condition) => expression_nodes(
            condition,
        ),
        Stmt::Scope(locals, _) => locals.len() as u64,
        Stmt::Call(_, _, arguments) => argument_nodes(arguments.as_slice()),
        Stmt::Bind(bindings, _) => binding_nodes(bindings.as_slice()),
    };
    beside.saturating_add(1)
}

fn argument_nodes(arguments: &[Arg]) -> u64
    ensures { result ≡ min (sum_by argument_nodes arguments.now) largest_size }
{
    let mut nodes = 0u64;
    for argument in arguments {
        if let Arg::In(value) = argument {
            nodes = nodes.saturating_add(expression_nodes(value));
        }
    }
    nodes
}

fn binding_nodes(bindings: &[Binding]) -> u64
    ensures { result ≡ min (sum_by binding_nodes bindings.now) largest_size }
{
    let mut nodes = 0u64;
    for binding in bindings {
        nodes = nodes.saturating_add(expression_nodes(&binding.value));
    }
    nodes
}

/// How many nodes an expression has.
fn expression_nodes(e: &Expr) -> u64
    ensures { result ≡ min (expression_nodes e.now) largest_size }
{
    match e {
        Expr::Lit(_) | Expr::Var(_) => 1,
        Expr::Un(_, a) | Expr::Bit(a, _) | Expr::Slice(a, _, _) => expression_nodes(
            a.get(),
        ).saturating_add(1),
        Expr::Bin(_, a, b) | Expr::Concat(a, b) => {
            expression_nodes(a.get())
                .saturating_add(expression_nodes(b.get()))
                .saturating_add(1)
        }
        Expr::Choose(c, a, b) => {
            let sides = expression_nodes(a.get()).saturating_add(expression_nodes(b.get()));
            expression_nodes(c.get())
                .saturating_add(sides)
                .saturating_add(1)
        }
    }
}
