//! A module's inputs and outputs.

ghost use Rattle.std.specs.Prelude.{◌≡◌, ◌++◌, ◌∷◌, [], IfOk, OnOk, length, if◌then◌else◌};
ghost use Rattle.qz_syntax.specs.declared.declarations.Dir.TheVariants as direction;
ghost use Rattle.qz_meaning.specs.Programs.{program_of, is_same_direction};
ghost use Rattle.qz_run.specs.Inputs.{input_types, types_of};

use qz_syntax::{Dir, Formal, Module};
use qz_values::Ty;
use std::alloc::{AllocError, Global};

/// The types of a module's inputs, in the order of its formals.
///
/// # Errors
///
/// Want of memory alone.
pub fn input_types(alloc: Global, m: &Module) -> Result<Vec<Ty>, AllocError>
    ensures { IfOk result (λ types. types.items ≡ input_types (program_of m.now)) }
{
    types_of(alloc, Dir::In, m.formals.as_slice())
}

/// How many outputs a module has.
///
/// # Errors
///
/// Want of memory alone.
pub fn output_count(alloc: Global, m: &Module) -> Result<usize, AllocError>
    ensures { IfOk result (λ count. count ≡ length (program_of m.now).outputs) }
{
    let types = types_of(alloc, Dir::Out, m.formals.as_slice())?;
    let listed = types.as_slice();
    Ok(listed.len())
}

/// The types of those formals that have this direction.
#[tactic(auto, using(crate::proofs::FormalLemmas::types_more))]
fn types_of(alloc: Global, side: Dir, formals: &[Formal]) -> Result<Vec<Ty>, AllocError>
    ensures { IfOk result (λ types. types.items ≡ types_of side formals.now) }
{
    let mut types = Vec::new(alloc);
    for formal in formals {
        add_type(&mut types, is_same_direction(formal.dir, side), formal.ty)?;
    }
    Ok(types)
}

/// Adds a type if it is wanted.
fn add_type(types: &mut Vec<Ty>, wanted: bool, ty: Ty) -> Result<(), AllocError>
    ensures { OnOk result (types.new.items ≡ types.old.items ++ (if wanted then ty ∷ [] else [])) }
{
    if wanted {
        types.push(ty)?;
    }
    Ok(())
}

/// Whether two directions are one.
fn is_same_direction(a: Dir, b: Dir) -> bool
    ensures { result ≡ is_same_direction a b }
{
    match a {
        Dir::In => match b {
            Dir::In => true,
            Dir::Out => false,
        },
        Dir::Out => match b {
            Dir::In => false,
            Dir::Out => true,
        },
    }
}
