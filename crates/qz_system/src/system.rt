//! A system, and what is read of it.

ghost use Rattle.std.specs.Prelude.{◌≡◌, ◌↔◌, ◌+◌, IfOk, IsTrue, length};
ghost use Rattle.std.proofs.Props.{props};
ghost use Rattle.qz_system.specs.Parts.{AreParts};

use crate::parts::SystemParts;
use crate::valuation::Valuation;
use crate::{fitting, permitting, rounds, typing};
use qz_nets::NetTable;
use qz_syntax::{Later, Port};
use qz_values::Know;
use std::alloc::{AllocError, Global};

/// A system, of which all holds that must hold of its parts.
#[derive(Drop)]
pub struct System {
    parts: SystemParts,
    ghost sound: { AreParts parts } by { Prim.hlevel props },
}

impl System {
    ghost use Rattle.qz_system.specs.Parts.{AreParts};
    ghost use Rattle.qz_nets.specs.Readings.{count};
    ghost use Rattle.qz_system.specs.Valuations.{Fits, is_permitted};
    ghost use Rattle.qz_system.specs.Rounds.{HaveTypes, IsRound};

    /// The system that is made of these parts.
    ///
    /// # Errors
    ///
    /// Want of memory alone.
    pub fn make(_alloc: Global, parts: SystemParts) -> Result<System, AllocError>
        requires { AreParts parts }
        ensures { IfOk result (λ system. system.parts ≡ parts) }
    {
        Ok(System { parts })
    }

    /// The parts of which it was made.
    pub fn parts(&self) -> &SystemParts
        ensures parts { result.now ≡ self.now.parts }
        ensures sound { AreParts result.now }
    {
        &self.parts
    }

    /// The inputs, in their order.
    pub fn inputs(&self) -> &[Port]
        ensures { result.now ≡ self.now.parts.inputs }
    {
        self.parts.inputs.as_slice()
    }

    /// The outputs, in their order.
    pub fn outputs(&self) -> &[Port]
        ensures { result.now ≡ self.now.parts.outputs }
    {
        self.parts.outputs.as_slice()
    }

    /// How many places there are.
    pub fn places(&self) -> u32
        ensures { result ≡ length self.now.parts.places }
    {
        self.parts.places.len() as u32
    }

    /// How many instances there are.
    pub fn instances(&self) -> u32
        ensures { result ≡ length self.now.parts.instances }
    {
        self.parts.instances.len() as u32
    }

    /// The size of the whole program.
    pub fn units(&self) -> u64
        ensures { result ≡ self.now.parts.units }
    {
        self.parts.units
    }

    /// The nets.
    pub fn nets(&self) -> &NetTable
        ensures { result.now ≡ self.now.parts.table }
    {
        &self.parts.table
    }

    /// Whether a valuation has the system's lengths and types.
    pub fn fits(&self, v: &Valuation) -> bool
        ensures { IsTrue result ↔ Fits self.now.parts v.now }
    {
        fitting::fits(&self.parts, v)
    }

    /// Whether a valuation that fits is permitted.
    pub fn permitted(&self, v: &Valuation) -> bool
        requires { Fits self.now.parts v.now }
        ensures { result ≡ is_permitted self.now.parts v.now }
    {
        permitting::permitted(&self.parts, v)
    }

    /// Whether what is known of instances, by their numbers, is of their types.
    pub fn takes(&self, now: &[Know]) -> bool
        ensures { IsTrue result ↔ HaveTypes self.now.parts now.now }
    {
        typing::have_types(&self.parts, now)
    }

    /// Lets `now` be the round after the one in which this was known of the instances, and `later` what
    /// is then known of their delayed values, both in instance order. Round 0 knows nothing of any
    /// instance.
    ///
    /// `scratch` is as long as the nets and the leaves together; what it has afterwards is open.
    pub fn round(&self, v: &Valuation, scratch: &mut [Know], now: &mut [Know], later: &mut [Later])
        requires fits { Fits self.now.parts v.now }
        requires scratch { length scratch.old ≡ count self.now.parts.table + length self.now.parts.leaves }
        requires now { length now.old ≡ length self.now.parts.instances }
        requires later { length later.old ≡ length self.now.parts.instances }
        requires typed { HaveTypes self.now.parts now.old }
        ensures round { IsRound self.now.parts v.now now.old now.new later.new }
        ensures typed { HaveTypes self.now.parts now.new }
    {
        rounds::round(&self.parts, v, scratch, now, later);
    }
}
