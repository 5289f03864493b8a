//! The ports of a program.

ghost use Rattle.std.specs.Prelude.{◌≡◌, ◌++◌, ◌∷◌, [], IfOk, OnOk, if◌then◌else◌};
ghost use Rattle.qz_meaning.specs.Programs.{is_same_direction};
ghost use Rattle.qz_closing.specs.ProgramParts.{port_of, ports_in};

use qz_syntax::{Dir, Formal, Port};
use sqlite_items::Items;
use std::alloc::{AllocError, Global};

/// The ports of one direction, in the order of the formals.
#[tactic(auto, using(crate::proofs::Listed::port_more))]
pub(crate) fn ports_in(
    alloc: Global,
    side: Dir,
    formals: &[Formal],
) -> Result<Items<Port>, AllocError>
    ensures { IfOk result (λ ports. ports ≡ ports_in side formals.now) }
{
    let mut ports = Items::new(alloc);
    for formal in formals {
        add_port(&mut ports, side, formal)?;
    }
    Ok(ports)
}

/// Adds the port of a formal if it has this direction.
fn add_port(ports: &mut Items<Port>, side: Dir, formal: &Formal) -> Result<(), AllocError>
    ensures { OnOk result (ports.new ≡ ports.old ++ (if is_same_direction formal.now.dir side then port_of formal.now ∷ [] else [])) }
{
    if is_same_direction(formal.dir, side) {
        ports.push(Port {
            name: formal.name.clone()?,
            ty: formal.ty,
        })?;
    }
    Ok(())
}

/// Whether two directions are one.
pub(crate) fn is_same_direction(one: Dir, other: Dir) -> bool
    ensures { result ≡ is_same_direction one other }
{
    match one {
        Dir::In => match other {
            Dir::In => true,
            Dir::Out => false,
        },
        Dir::Out => match other {
            Dir::In => false,
            Dir::Out => true,
        },
    }
}
