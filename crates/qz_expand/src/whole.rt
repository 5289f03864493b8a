//! The whole program of a module that calls nothing.

ghost use Rattle.std.specs.Prelude.{◌≡◌, ◌≤◌, ◌↔◌, IfOk, IfErr, OnOk, IsTrue};
ghost use Rattle.std.specs.Str.{chars};
ghost use Rattle.qz_syntax.specs.Sizes.{whole_size_of};
ghost use Rattle.qz_expand.specs.Texts.{names_of};
ghost use Rattle.qz_expand.specs.Refusals.{largest_program, StandsAgainst, IsAccepted, IsMissingOrMemory, IsInstantOrMemory, IsLargeOrMemory};

use crate::depths::is_deeper;
use crate::endings::ending_of;
use crate::texts::names_of;
use qz_syntax::{LinkRefusal, Module, Name, Names, Text, Whole, size};
use std::alloc::{AllocError, Global};

/// The deepest that a statement of a whole program may stand.
const DEEPEST: u32 = 2_000;

/// How large a whole program may be.
const MAX_UNITS: u64 = 100_000;

/// The whole program with this top, of one module: the module with its texts. Meant for a module that
/// calls nothing: a call would stay as it is, and counts as one that doesn't end at once.
///
/// It is refused as missing where it isn't the top; then for the first loop in tree order whose body may
/// end at once; then where its size is above 100,000, which is `2^64 - 1` where a statement is deeper
/// than 2,000.
pub fn expand_one(alloc: Global, m: Module, top: &str) -> Result<Whole, LinkRefusal>
    ensures body { IfOk result (λ whole. whole.module ≡ m) }
    ensures names { IfOk result (λ whole. whole.names ≡ names_of m) }
    ensures accepted { OnOk result (IsAccepted top.now m) }
    ensures refused { IfErr result (StandsAgainst top.now m) }
{
    match accepted_names(alloc, &m, top) {
        Ok(names) => Ok(joined(m, names)),
        Err(refusal) => Err(refusal),
    }
}

/// A module and its texts.
fn joined(m: Module, names: Names) -> Whole
    ensures body { result.module ≡ m }
    ensures names { result.names ≡ names }
{
    Whole { module: m, names }
}

/// The module's texts, where nothing stands against it.
fn accepted_names(alloc: Global, m: &Module, top: &str) -> Result<Names, LinkRefusal>
    ensures names { IfOk result (λ names. names ≡ names_of m.now) }
    ensures accepted { OnOk result (IsAccepted top.now m.now) }
    ensures refused { IfErr result (StandsAgainst top.now m.now) }
{
    if !is_named(&m.name, top) {
        return Err(missing(alloc, top));
    }
    match ending_of(&m.body).instant {
        Some(number) => Err(instant_loop(&m.name, number)),
        None => names_if_small(alloc, m),
    }
}

/// The module's texts, where it isn't too large.
fn names_if_small(alloc: Global, m: &Module) -> Result<Names, LinkRefusal>
    ensures names { IfOk result (λ names. names ≡ names_of m.now) }
    ensures small { OnOk result (whole_size_of m.now ≤ largest_program) }
    ensures refused { IfErr result (IsLargeOrMemory m.now) }
{
    let units = whole_size(m);
    if units > MAX_UNITS {
        return Err(LinkRefusal::Size { units });
    }
    match names_of(alloc, m) {
        Ok(names) => Ok(names),
        Err(AllocError) => Err(LinkRefusal::Memory),
    }
}

/// That this loop of a module may end at once.
fn instant_loop(name: &Name, number: u32) -> LinkRefusal
    ensures { IsInstantOrMemory name.now number result }
{
    match name.clone() {
        Ok(name) => LinkRefusal::InstantLoop {
            module: name,
            number,
        },
        Err(AllocError) => LinkRefusal::Memory,
    }
}

/// Whether the name has this text.
fn is_named(name: &Name, text: &str) -> bool
    ensures { IsTrue result ↔ (name.now ≡ chars text.now) }
{
    name.as_str() == text
}

fn missing(alloc: Global, top: &str) -> LinkRefusal
    ensures { IsMissingOrMemory top.now result }
{
    match String::from_str(alloc, top) {
        Ok(text) => LinkRefusal::Missing {
            name: Text::from_string(text),
        },
        Err(AllocError) => LinkRefusal::Memory,
    }
}

/// The size of a whole program, which is the largest where a statement stands too deep.
fn whole_size(m: &Module) -> u64
    ensures { result ≡ whole_size_of m.now }
{
    if is_deeper(&m.body, DEEPEST) {
        u64::MAX
    } else {
        size(m)
    }
}
