//! What a system has of a program beside its nets.

ghost use Rattle.std.specs.Prelude.{◌≡◌, map, IfOk};
ghost use Rattle.qz_meaning.specs.Programs.{instances_of};
ghost use Rattle.qz_react.specs.Seeing.{instance_of};
ghost use Rattle.qz_single.specs.Numbered.{IsNumbering};
ghost use Rattle.qz_single.specs.Joined.{IsNamed};

use crate::cells::cells_of;
use crate::instances::insts_of;
use crate::numbering::Numbering;
use crate::ports::ports_in;
use crate::shapes::shape_of;
use crate::size::whole_size;
use qz_react::Instance;
use qz_syntax::{Dir, Name, Port, Text, Whole};
use qz_system::{Cell, Inst, Shape};
use sqlite_items::Items;
use std::alloc::{AllocError, Global};

/// Names and texts, with the cells, the shape and the size.
#[derive(Drop)]
pub(crate) struct Named {
    pub name: Name,
    pub inputs: Items<Port>,
    pub outputs: Items<Port>,
    pub cells: Items<Cell>,
    pub shape: Shape,
    pub places: Items<Text>,
    pub instances: Items<Inst>,
    pub units: u64,
}

/// What a system has of a program, which has these instances.
pub(crate) fn named_of(
    alloc: Global,
    w: &Whole,
    numbering: &Numbering,
    instances: &[Instance],
) -> Result<Named, AllocError>
    requires numbering { IsNumbering w.now.module numbering.now }
    requires instances { map instance_of instances.now ≡ instances_of w.now.module }
    ensures { IfOk result (λ named. IsNamed w.now named) }
{
    let formals = w.module.formals.as_slice();
    let name = w.module.name.clone()?;
    let inputs = ports_in(alloc, Dir::In, formals)?;
    let outputs = ports_in(alloc, Dir::Out, formals)?;
    let cells = cells_of(alloc, w)?;
    let shape = shape_of(alloc, &w.module.body, numbering.outputs.count)?;
    let places = copied(alloc, w.names.places.as_slice())?;
    let instances = insts_of(alloc, w, numbering, instances)?;
    Ok(Named {
        name,
        inputs,
        outputs,
        cells,
        shape,
        places,
        instances,
        units: whole_size(&w.module),
    })
}

fn copied(alloc: Global, texts: &[Text]) -> Result<Items<Text>, AllocError>
    ensures { IfOk result (λ copy. copy ≡ texts.now) }
{
    let mut copy = Items::new(alloc);
    for text in texts {
        copy.push(text.clone()?)?;
    }
    Ok(copy)
}
