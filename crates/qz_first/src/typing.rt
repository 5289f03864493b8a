//! From the tree as it is written to the core tree: names become numbers, lists become sequences.

ghost use Rattle.std.specs.Prelude.{ℕ, ◌≡◌, ◌↔◌, ◌+◌, ◌<◌, ◌≤◌, ◌^◌, [], replicate, None, Some, IsTrue, length, IfOk, OnOk, IfErr, MatchOption};
ghost use Rattle.std.specs.Str.{chars};
ghost use Rattle.qz_values.specs.Values.{yes};
ghost use Rattle.qz_syntax.specs.Sizes.{size_of};
ghost use Rattle.qz_syntax.specs.declared.expressions.Expr.TheVariants.{Lit};
ghost use Rattle.qz_syntax.specs.declared.expressions.Var.TheVariants as variable;
ghost use Rattle.qz_syntax.specs.declared.statements.Stmt.TheVariants as stmt;
ghost use Rattle.qz_first.specs.CoreTree.{IsAsked, core_module, number_of, sequence};
ghost use Rattle.qz_syntax.specs.DoubleNames.{formal_names, are_distinct};
ghost use Rattle.qz_first.specs.Reading.{OnNotBuilt};
ghost use Rattle.qz_first.specs.Typing.{IsCore, AreCores, NoCore, NoCores};

use crate::formal_numbers::FormalNumbers;
use crate::limits::{MAX_FORMALS, MAX_UNITS};
use crate::reader::NoSource;
use crate::source::{SourceModule, SourceStmt};
use qz_syntax::{Expr, Formal, Module, Name, Stmt, Var, size};
use qz_values::Value;
use sqlite_items::{Boxed, Items};
use std::alloc::Global;

/// How many places and loops stand before a statement in tree order.
#[derive(Drop)]
struct Counts {
    places: u32,
    loops: u32,
}

impl Counts {
    /// The next place's number.
    fn place(&mut self) -> Option<u32>
        ensures { MatchOption result (2 ^ 32 ≤ self.old.places + 1)
            (λ place. (place ≡ self.old.places) × (self.new.places ≡ self.old.places + 1) × (self.new.loops
            ≡ self.old.loops)) }
    {
        let place = self.places;
        self.places = place.checked_add(1)?;
        Some(place)
    }

    /// The next loop's number.
    fn turn(&mut self) -> Option<u32>
        ensures { MatchOption result (2 ^ 32 ≤ self.old.loops + 1)
            (λ turn. (turn ≡ self.old.loops) × (self.new.loops ≡ self.old.loops + 1) × (self.new.places
            ≡ self.old.places)) }
    {
        let turn = self.loops;
        self.loops = turn.checked_add(1)?;
        Some(turn)
    }
}

/// The module that a source describes, whose name has to be this one.
pub fn typed(alloc: Global, name: &str, source: SourceModule) -> Result<Module, NoSource>
    ensures asked { IfOk result (λ m. IsAsked name.now source) }
    ensures core { IfOk result (λ m. m ≡ core_module source) }
    ensures none { IfErr result (λ fault. OnNotBuilt fault (IsAsked name.now source → ⊥)) }
{
    if !has_head(name, &source) {
        return Err(NoSource::NotBuilt);
    }
    let mut counts = Counts {
        places: 0,
        loops: 0,
    };
    let body = body(
        alloc,
        source.formals.as_slice(),
        &mut counts,
        source.body.as_slice(),
    )?;
    let labels = unlabeled(alloc, counts.places)?;
    small(module_of(alloc, source, labels, counts.loops, sequence(body)))
}

/// Whether the source has this name, and not too many formals.
fn has_head(name: &str, source: &SourceModule) -> bool
    ensures { IsTrue result ↔ ((source.now.name ≡ chars name.now) × (length source.now.formals ≤ 256)) }
{
    is_named(&source.name, name) && source.formals.len() <= MAX_FORMALS
}

/// Whether the name has this text.
fn is_named(name: &Name, text: &str) -> bool
    ensures { IsTrue result ↔ (name.now ≡ chars text.now) }
{
    name.as_str() == text
}

/// The core statements of a module's body, if the names of its formals differ.
fn body(
    alloc: Global,
    formals: &[Formal],
    counts: &mut Counts,
    parts: &[SourceStmt],
) -> Result<Items<Stmt>, NoSource>
    ensures core { IfOk result
        (λ stmts. AreCores (formal_names formals.now) parts.now counts.old stmts counts.new) }
    ensures apart { OnOk result (IsTrue (are_distinct (formal_names formals.now))) }
    ensures none { IfErr result (λ fault. OnNotBuilt fault
        (IsTrue (are_distinct (formal_names formals.now)) → NoCores (formal_names formals.now) parts.now counts.old)) }
{
    match FormalNumbers::new(alloc, formals)? {
        Some(numbers) => members(alloc, &numbers, counts, parts),
        None => Err(NoSource::NotBuilt),
    }
}

/// The module, if it isn't too large.
fn small(typed: Module) -> Result<Module, NoSource>
    ensures small { IfOk result (λ m. size_of m ≤ 100000) }
    ensures same { IfOk result (λ m. m ≡ typed) }
    ensures none { IfErr result (λ fault. OnNotBuilt fault (100000 < size_of typed)) }
{
    if size(&typed) <= MAX_UNITS {
        Ok(typed)
    } else {
        Err(NoSource::NotBuilt)
    }
}

/// The module with these labels, so many loops and this body.
fn module_of(
    alloc: Global,
    source: SourceModule,
    labels: Items<Option<Name>>,
    loops: u32,
    body: Stmt,
) -> Module
    ensures { result ≡ record {
      name = source.name;
      formals = source.formals;
      decls = [];
      labels = labels;
      loops = loops;
      calls = 0;
      body = body;
    } }
{
    Module {
        name: source.name,
        formals: source.formals,
        decls: Items::new(alloc),
        labels,
        loops,
        calls: 0,
        body,
    }
}

/// For each place that it has no label.
fn unlabeled(alloc: Global, places: u32) -> Result<Items<Option<Name>>, NoSource>
    ensures labels { IfOk result (λ labels. labels ≡ replicate places None) }
    ensures memory { IfErr result (λ fault. fault ≡ NoSource.Memory) }
{
    let mut labels = Items::new(alloc);
    for _ in 0..places {
        labels.push(None)?;
    }
    Ok(labels)
}

/// The core statements of a list, one after the other.
#[cycle(core)]
fn members(
    alloc: Global,
    numbers: &FormalNumbers,
    counts: &mut Counts,
    parts: &[SourceStmt],
) -> Result<Items<Stmt>, NoSource>
    ensures core { IfOk result (λ stmts. AreCores numbers.now parts.now counts.old stmts counts.new) }
    ensures none { IfErr result (λ fault. OnNotBuilt fault (NoCores numbers.now parts.now counts.old)) }
{
    let mut members = Items::new(alloc);
    for part in parts {
        members.push(statement(alloc, numbers, counts, part)?)?;
    }
    Ok(members)
}

#[cycle(core)]
fn statement(
    alloc: Global,
    numbers: &FormalNumbers,
    counts: &mut Counts,
    source: &SourceStmt,
) -> Result<Stmt, NoSource>
    ensures core { IfOk result (λ s. IsCore numbers.now source.now counts.old s counts.new) }
    ensures none { IfErr result (λ fault. OnNotBuilt fault (NoCore numbers.now source.now counts.old)) }
{
    match source {
        SourceStmt::Nothing => Ok(Stmt::Nothing),
        SourceStmt::Pause => match counts.place() {
            Some(place) => Ok(Stmt::Pause(place)),
            None => Err(NoSource::NotBuilt),
        },
        SourceStmt::Emit(name) => match emit(numbers, name) {
            Some(stmt) => Ok(stmt),
            None => Err(NoSource::NotBuilt),
        },
        SourceStmt::Loop(body) => {
            let Some(turn) = counts.turn() else {
                return Err(NoSource::NotBuilt);
            };
            let body = statement(alloc, numbers, counts, body.get())?;
            Ok(Stmt::Loop(
                turn,
                Boxed::new(alloc, body)?,
                Expr::Lit(Value::truth(true)),
            ))
        }
        SourceStmt::Block(parts) => {
            let members = members(alloc, numbers, counts, parts.as_slice())?;
            Ok(sequence(members))
        }
    }
}

/// `emit x`, which is `x = true`.
fn emit(numbers: &FormalNumbers, name: &Name) -> Option<Stmt>
    ensures { MatchOption result (length numbers.now ≤ 256 → number_of numbers.now name.now ≡ None)
        (λ s. (number : ℕ) × (number_of numbers.now name.now ≡ Some number) × (s
        ≡ stmt.Assign (variable.Formal number) (Lit yes))) }
{
    let number = numbers.number_of(name)?;
    match u32::try_from(number) {
        Ok(number) => Some(Stmt::Assign(Var::Formal(number), Expr::Lit(Value::truth(true)))),
        Err(_) => None,
    }
}

/// A list as one statement: none is `nothing`, one is itself.
fn sequence(mut members: Items<Stmt>) -> Stmt
    ensures { result ≡ sequence members }
{
    if members.len() > 1 {
        return Stmt::Seq(members);
    }
    members.pop().unwrap_or(Stmt::Nothing)
}
