//! By which numbers a system has what a module's nets speak of.

ghost use Rattle.std.specs.Prelude.{◌≡◌, map, IfOk, if◌then◌else◌};
ghost use Rattle.qz_syntax.specs.declared.modules.Module.{Module as OfTree};
ghost use Rattle.qz_meaning.specs.Programs.{instances_of};
ghost use Rattle.qz_react.specs.Seeing.{instance_of};
ghost use Rattle.qz_closing.specs.ProgramParts.{cell_number};
ghost use Rattle.qz_single.specs.Numbering.{instance_place, formal_leaf, leaf_of};
ghost use Rattle.qz_single.specs.Numbered.{IsNumbering};

use crate::formals::{formal_instance, formals_in};
use crate::numbers::Numbers;
use crate::shapes::sum;
use qz_control::LeafKind;
use qz_react::Instance;
use qz_syntax::{Dir, Mark, Module, Var};
use qz_system::SystemLeaf;
use std::alloc::{AllocError, Global};

/// The numbers of inputs, of outputs and of instances.
#[derive(Drop)]
pub(crate) struct Numbering {
    pub inputs: Numbers,
    pub outputs: Numbers,
    pub instances: Numbers,
}

impl Numbering {
    /// The numbers of a module, which has these instances.
    pub fn of(alloc: Global, m: &Module, instances: &[Instance]) -> Result<Numbering, AllocError>
        requires { map instance_of instances.now ≡ instances_of m.now }
        ensures { IfOk result (λ numbering. IsNumbering m.now numbering) }
    {
        let inputs = formals_in(alloc, Dir::In, m.formals.as_slice())?;
        let outputs = formals_in(alloc, Dir::Out, m.formals.as_slice())?;
        let inputs = Numbers::of(alloc, &inputs)?;
        let outputs = Numbers::of(alloc, &outputs)?;
        let instances = Numbers::of(alloc, instances)?;
        Ok(Numbering {
            inputs,
            outputs,
            instances,
        })
    }

    /// The number of an instance.
    pub fn instance(&self, variable: Var, mark: Mark) -> u32
        ensures { (m : OfTree) → IsNumbering m self.now → result ≡ instance_place m (record { variable = variable; mark = mark }) }
    {
        self.instances.number(Instance { variable, mark })
    }

    /// The number of a variable's cell: first are the outputs, and then the locals.
    pub fn cell(&self, variable: Var) -> Result<u32, AllocError>
        ensures { (m : OfTree) → IsNumbering m self.now → IfOk result (λ n. n ≡ cell_number m variable) }
    {
        match variable {
            Var::Formal(n) => Ok(self.outputs.number(formal_instance(n))),
            Var::Local(n) => sum(self.outputs.count, n),
            Var::Bound(_) => Ok(0),
        }
    }

    /// What a leaf stands for.
    pub fn leaf(&self, kind: LeafKind) -> SystemLeaf
        ensures { (m : OfTree) → IsNumbering m self.now → result ≡ leaf_of m kind }
    {
        match kind {
            LeafKind::Formal(n) => self.formal_leaf(n),
            LeafKind::Local(n, mark) => SystemLeaf::Now(self.instance(Var::Local(n), mark)),
            LeafKind::At(place) => SystemLeaf::At(place),
            LeafKind::Start
            | LeafKind::Drop
            | LeafKind::Act
            | LeafKind::Stay
            | LeafKind::Leave
            | LeafKind::CallMayEnd(_)
            | LeafKind::CallInside(_)
            | LeafKind::CallEnds(_)
            | LeafKind::CallEndsAtOnce(..) => SystemLeaf::Started,
        }
    }

    /// What a formal's leaf stands for.
    fn formal_leaf(&self, n: u32) -> SystemLeaf
        ensures { (m : OfTree) → IsNumbering m self.now → result ≡ formal_leaf m n }
    {
        match self.inputs.find(formal_instance(n)) {
            Some(input) => SystemLeaf::Input(input),
            None => SystemLeaf::Now(self.instance(Var::Formal(n), Mark::Zero)),
        }
    }
}
