//! The numbers of instances.

ghost use Rattle.std.specs.Prelude.{◌≡◌, map, List, length, IfOk};
ghost use Rattle.indexmap.specs.IndexMap.{get};
ghost use Rattle.qz_react.specs.declared.instances.Instance.{Instance as Named};
ghost use Rattle.qz_react.specs.contracts.instances.InstancePartialEq.TheImpl.{eq-value};
ghost use Rattle.qz_meaning.specs.Instances.{Instance as OfMeaning};
ghost use Rattle.qz_react.specs.Seeing.{instance_of};
ghost use Rattle.qz_single.specs.Numbering.{place_among};
ghost use Rattle.qz_single.specs.Numbered.{AreNumbersOf, place_from};

use indexmap::IndexMap;
use qz_react::Instance;
use std::alloc::{AllocError, Global};

/// The numbers of the instances of a list: for each its first place.
#[derive(Drop)]
pub(crate) struct Numbers {
    pub first: IndexMap<Instance, u32>,
    pub count: u32,
}

impl Numbers {
    /// The numbers of these instances. The time is linear in them.
    pub fn of(alloc: Global, instances: &[Instance]) -> Result<Numbers, AllocError>
        ensures { IfOk result (λ numbers. AreNumbersOf (map instance_of instances.now) numbers) }
    {
        match u32::try_from(instances.len()) {
            Ok(count) => Ok(Numbers {
                first: first_places(alloc, instances, count)?,
                count,
            }),
            Err(_) => Err(AllocError),
        }
    }

    /// The number of an instance, if it is one of the list.
    pub fn find(&self, instance: Instance) -> Option<u32>
        ensures { (instances : List OfMeaning) → AreNumbersOf instances self.now → result ≡ place_from 0 (instance_of instance) instances }
    {
        self.first.get(&instance).copied()
    }

    /// The number of an instance; of one that isn't in the list, how many there are.
    pub fn number(&self, instance: Instance) -> u32
        ensures { (instances : List OfMeaning) → AreNumbersOf instances self.now → result ≡ place_among (instance_of instance) instances }
    {
        match self.find(instance) {
            Some(number) => number,
            None => self.count,
        }
    }
}

/// For each instance its first place, from the last one on.
fn first_places(
    alloc: Global,
    instances: &[Instance],
    count: u32,
) -> Result<IndexMap<Instance, u32>, AllocError>
    requires { count ≡ length instances.now }
    ensures { IfOk result (λ first. (i : Named) → get (eq-value).it first i ≡ place_from 0 (instance_of i) (map instance_of instances.now)) }
{
    let mut first = IndexMap::new(alloc);
    let mut left = count;
    while left > 0 {
        left -= 1;
        first.insert(instances[left as usize], left)?;
    }
    Ok(first)
}
