//! The instances of a program and their numbers.

ghost use Rattle.std.specs.Prelude.{◌≡◌, Some, true, map, slice_get, IfSome};
ghost use Rattle.qz_react.specs.Seeing.{instance_of, named};

use qz_syntax::{Mark, Var};

/// A variable together with the start by which its scope came about.
#[derive(Clone, Copy, Debug, PartialEq, Eq, Hash)]
pub struct Instance {
    pub variable: Var,
    pub mark: Mark,
}

/// Where the value of a formal stands.
#[derive(Clone, Copy, Debug, PartialEq, Eq)]
pub enum Carrier {
    /// Among the inputs, at this place.
    Input(u32),
    /// Among the instances, at this place.
    Instance(u32),
}

/// The instances of a program in their order: the outputs, and then each local with mark zero and
/// the loops round it from the outermost in. Each has its place in this order as its number.
#[derive(Debug, Drop)]
pub struct Instances {
    /// The numbers of the input formals.
    pub inputs: Vec<u32>,
    pub all: Vec<Instance>,
    /// For each formal where its value stands.
    carriers: Vec<Carrier>,
    /// For each local the number of its instance with mark zero.
    first: Vec<u32>,
    /// For each loop how many loops stand round it.
    depth: Vec<u32>,
}

impl Instances {
    /// Numbers by these lists.
    pub fn new(
        inputs: Vec<u32>,
        all: Vec<Instance>,
        carriers: Vec<Carrier>,
        first: Vec<u32>,
        depth: Vec<u32>,
    ) -> Instances
        ensures inputs { result.inputs ≡ inputs }
        ensures all { result.all ≡ all }
    {
        Instances {
            inputs,
            all,
            carriers,
            first,
            depth,
        }
    }

    /// The place of an input formal among the inputs.
    pub fn input(&self, formal: u32) -> Option<u32>
        ensures { IfSome result (λ k. slice_get self.now.inputs.items k ≡ Some formal) }
    {
        match self.carriers.get(formal as usize) {
            Some(Carrier::Input(k)) if is_at(&self.inputs, *k, formal) => Some(*k),
            _ => None,
        }
    }

    /// The number of an instance.
    pub fn number(&self, variable: Var, mark: Mark) -> Option<u32>
        ensures { IfSome result (λ k. slice_get (named self.now) k ≡ Some (record { variable = variable; mark = mark })) }
    {
        let k = self.place(variable, mark)?;
        let instance = Instance { variable, mark };
        if is_instance_at(&self.all, k, instance) {
            Some(k)
        } else {
            None
        }
    }

    /// Where an instance stands, if it is one.
    fn place(&self, variable: Var, mark: Mark) -> Option<u32> {
        match variable {
            Var::Formal(n) => match self.carriers.get(n as usize) {
                Some(Carrier::Instance(k)) => Some(*k),
                _ => None,
            },
            Var::Local(n) => {
                let first = self.first.get(n as usize).copied()?;
                match mark {
                    Mark::Zero => Some(first),
                    Mark::Loop(q) => first
                        .checked_add(self.depth.get(q as usize).copied()?)?
                        .checked_add(1),
                    Mark::Here => None,
                }
            }
            Var::Bound(_) => None,
        }
    }
}

/// Whether a number stands at this place.
fn is_at(numbers: &[u32], k: u32, number: u32) -> bool
    ensures { result ≡ true → slice_get numbers.now k ≡ Some number }
{
    match numbers.get(k as usize) {
        Some(found) => *found == number,
        None => false,
    }
}

/// Whether an instance stands at this place.
fn is_instance_at(instances: &[Instance], k: u32, instance: Instance) -> bool
    ensures { result ≡ true → slice_get (map instance_of instances.now) k ≡ Some (instance_of instance) }
{
    match instances.get(k as usize) {
        Some(found) => *found == instance,
        None => false,
    }
}
