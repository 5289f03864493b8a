//! From bytes to a whole program.

ghost use Rattle.std.specs.Prelude.{◌≡◌, ◌≤◌, ℕ, List, [], length, IfOk, IfErr, OnOk, MatchOption};
ghost use Rattle.qz_syntax.specs.declared.modules.Whole.{Whole};
ghost use Rattle.qz_syntax.specs.WellFormed.{IsWellFormed};
ghost use Rattle.qz_program.specs.declared.causes.NoProgram.{NoProgram};
ghost use Rattle.qz_program.specs.declared.causes.NoProgram.TheVariants.{Memory};
ghost use Rattle.qz_program.specs.Programs.{IsAlone, IsModuleOf, IsOf, IsProgramOf, IsLinked};
ghost use Rattle.qz_program.specs.Causes.{StandsAgainstTyped, StandsAgainstLink, StandsAgainstFile, StandsAgainst};

use crate::causes::{NoProgram, source_cause};
use qz_expand::expand_one;
use qz_source::{one_answer, read_module};
use qz_syntax::{File, LinkRefusal, Module, Typed, Whole, size};
use qz_types::{TypeRefusal, check};
use std::alloc::Global;

/// How many bytes a source may have.
pub const MAX_SOURCE: u64 = 1_048_576;

/// How large a file's module may be.
const MAX_UNITS: u64 = 100_000;

/// The whole program of this name that the bytes make, or the first cause against them.
///
/// # Errors
///
/// The first cause, in the order of the variants of `NoProgram`; or want of memory.
pub fn program_of_bytes(alloc: Global, name: &str, bytes: &[u8]) -> Result<Whole, NoProgram>
    requires { length bytes.now ≤ 1048576 }
    ensures found { IfOk result (IsProgramOf name.now bytes.now) }
    // The bytes make no other program.
    ensures only { IfOk result (λ w. (other : Whole) → IsProgramOf name.now bytes.now other → other ≡ w) }
    // No cause stands against them.
    ensures clear { OnOk result ((why : NoProgram) → StandsAgainst name.now bytes.now why → why ≡ Memory) }
    ensures refused { IfErr result (StandsAgainst name.now bytes.now) }
    ensures well_formed { IfOk result (λ w. IsWellFormed [] w.module) }
{
    one_answer();
    match read_module(alloc, bytes) {
        Ok(file) => program_of_file(alloc, name, &file),
        Err(fault) => Err(source_cause(fault)),
    }
}

/// The same from the file that the bytes spell.
fn program_of_file(alloc: Global, name: &str, file: &File) -> Result<Whole, NoProgram>
    ensures found { IfOk result (IsOf name.now file.now) }
    ensures refused { IfErr result (StandsAgainstFile name.now file.now) }
    ensures well_formed { IfOk result (λ w. IsWellFormed [] w.module) }
{
    match module_of(alloc, file) {
        Ok(root) => linked(alloc, root, name),
        Err(why) => Err(why),
    }
}

/// The module of a file that has no prototypes and isn't too large.
fn module_of(alloc: Global, file: &File) -> Result<Module, NoProgram>
    ensures found { IfOk result (IsModuleOf file.now) }
    ensures refused { IfErr result (λ why. (name : List ℕ) → StandsAgainstFile name file.now why) }
    ensures well_formed { IfOk result (IsWellFormed []) }
{
    match check(alloc, file) {
        Ok(typed) => alone(typed),
        Err(TypeRefusal::At { offset, kind }) => Err(NoProgram::Types { offset, kind }),
        Err(TypeRefusal::Memory) => Err(NoProgram::Memory),
    }
}

/// The module of a typed source, where nothing is against it.
fn alone(typed: Typed) -> Result<Module, NoProgram>
    ensures found { IfOk result (λ m. IsAlone typed × (m ≡ typed.module)) }
    ensures refused { IfErr result (StandsAgainstTyped typed) }
{
    match against(&typed) {
        Some(why) => Err(why),
        None => Ok(typed.module),
    }
}

/// What is against a typed source by itself.
fn against(typed: &Typed) -> Option<NoProgram>
    ensures { MatchOption result (IsAlone typed.now) (StandsAgainstTyped typed.now) }
{
    if !typed.protos.is_empty() {
        return Some(NoProgram::Prototypes);
    }
    let units = size(&typed.module);
    if units > MAX_UNITS {
        return Some(NoProgram::FileSize { units });
    }
    None
}

/// The whole program with this top.
fn linked(alloc: Global, root: Module, name: &str) -> Result<Whole, NoProgram>
    ensures found { IfOk result (IsLinked name.now root) }
    ensures refused { IfErr result (StandsAgainstLink name.now root) }
{
    match expand_one(alloc, root, name) {
        Ok(whole) => Ok(whole),
        Err(LinkRefusal::Missing { .. }) => Err(NoProgram::Missing),
        Err(LinkRefusal::InstantLoop { module, number }) => {
            Err(NoProgram::InstantLoop { module, number })
        }
        Err(LinkRefusal::Size { units }) => Err(NoProgram::Size { units }),
        Err(LinkRefusal::Duplicate { .. }) => unreachable!(),
        Err(LinkRefusal::Mismatch { .. }) => unreachable!(),
        Err(LinkRefusal::Recursive { .. }) => unreachable!(),
        Err(LinkRefusal::Memory) => Err(NoProgram::Memory),
    }
}
