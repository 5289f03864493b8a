//! The instances of a program, as a system has them.

ghost use Rattle.std.specs.Prelude.{◌≡◌, map, IfOk};
ghost use Rattle.qz_syntax.specs.declared.places.Mark.TheVariants as kind;
ghost use Rattle.qz_meaning.specs.Instances.{is_same_mark};
ghost use Rattle.qz_meaning.specs.Programs.{instances_of};
ghost use Rattle.qz_react.specs.Seeing.{instance_of};
ghost use Rattle.qz_closing.specs.ProgramParts.{inst_of, insts_of};
ghost use Rattle.qz_single.specs.Numbered.{IsNumbering};

use crate::numbering::Numbering;
use crate::texts::instance_text;
use qz_react::Instance;
use qz_syntax::{Mark, Whole};
use qz_system::Inst;
use sqlite_items::Items;
use std::alloc::{AllocError, Global};

/// The instances of a program with their cells and texts.
pub(crate) fn insts_of(
    alloc: Global,
    w: &Whole,
    numbering: &Numbering,
    instances: &[Instance],
) -> Result<Items<Inst>, AllocError>
    requires numbering { IsNumbering w.now.module numbering.now }
    requires instances { map instance_of instances.now ≡ instances_of w.now.module }
    ensures { IfOk result (λ insts. insts ≡ insts_of w.now) }
{
    let mut insts = Items::new(alloc);
    for instance in instances {
        insts.push(inst(alloc, w, numbering, *instance)?)?;
    }
    Ok(insts)
}

fn inst(
    alloc: Global,
    w: &Whole,
    numbering: &Numbering,
    instance: Instance,
) -> Result<Inst, AllocError>
    requires { IsNumbering w.now.module numbering.now }
    ensures { IfOk result (λ one. one ≡ inst_of w.now (instance_of instance)) }
{
    let cell = numbering.cell(instance.variable)?;
    let text = instance_text(alloc, w, instance)?;
    Ok(Inst {
        cell,
        zero: is_zero(instance.mark),
        text,
    })
}

/// Whether it is the mark zero.
fn is_zero(mark: Mark) -> bool
    ensures { result ≡ is_same_mark mark kind.Zero }
{
    match mark {
        Mark::Zero => true,
        Mark::Here | Mark::Loop(_) => false,
    }
}
