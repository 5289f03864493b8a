//! Answers calls, and keeps each answer (the computed table of the literature).
//!
//! A call whose answer isn't plain is taken apart by the first variable of its operands: the node of
//! that variable, with the answers to the call's two cofactors as sides, is its answer.

ghost use Rattle.std.specs.Prelude.{false, slice_index_or, ◌≡◌, ◌<◌, ◌+◌, ◌-◌, Bool, List, None, IfOk, IfSome};
ghost use Rattle.std.specs.Option.{IfNone};
ghost use Rattle.qz_dd.specs.Calls.{IsUndecided, size, call_value};
ghost use Rattle.qz_dd.specs.Tables.{Carries, count, value_in, level_in, Extends, IsMade};
ghost use Rattle.qz_dd.specs.Answers.{Has, IsAnswer, AreRight, IsTop, IsLow, IsHigh, IsCofactorCall, Awaits, Chained, OnWay, steps, steps_left, all_steps, frame_steps};
ghost use Rattle.std.proofs.Props.{props};
ghost use Rattle.qz_dd.specs.declared.call.Call.{Call};

use crate::call::{Call, shortcut};
use crate::node::DdId;
use crate::table::Table;
use crate::work::{Frame, Work};
use indexmap::IndexMap;
use std::alloc::{AllocError, Global};

/// The table, and what calls gave so far.
#[derive(Drop)]
pub struct Solver {
    pub table: Table,
    results: IndexMap<Call, DdId>,
    ghost right: { AreRight table results } by { Prim.hlevel props },
}

impl Solver {
    pub fn new(alloc: Global, vars: u32) -> Solver
        ensures vars { result.table.vars ≡ vars }
        ensures count { count result.table ≡ 2 }
    {
        Solver {
            table: Table::new(alloc, vars),
            results: IndexMap::new(alloc),
        }
    }

    /// The first variable of the operands.
    fn top(&self, call: Call) -> u32
        requires has { Has self.now.table call }
        requires undecided { IsUndecided call }
        ensures { IsTop self.now.table result call }
    {
        let a = self.table.level(call.a);
        let b = self.table.level(call.b);
        let c = self.table.level(call.c);
        a.min(b).min(c)
    }

    /// The call's cofactor: what it asks for where the variable has this value.
    fn cofactor(&self, call: Call, var: u32, side: bool) -> Call
        requires has { Has self.now.table call }
        requires top { IsTop self.now.table var call }
        ensures { IsCofactorCall self.now.table var side call result }
    {
        let a = self.table.cofactor(call.a, var, side);
        let b = self.table.cofactor(call.b, var, side);
        let c = self.table.cofactor(call.c, var, side);
        Call {
            task: call.task,
            a,
            b,
            c,
        }
    }

    /// The call's answer, where it is kept or plain.
    fn known(&self, call: Call) -> Option<DdId>
        requires { Has self.now.table call }
        ensures right { IfSome result (IsAnswer self.now.table call) }
        ensures undecided { IfNone result (IsUndecided call) }
    {
        match shortcut(call) {
            Some(d) => Some(d),
            None => self.results.get(&call).copied(),
        }
    }

    /// Goes on to the low cofactor of a call whose answer isn't known.
    fn enter(&mut self, work: &mut Work) -> Result<(), AllocError>
        requires has { Has self.old.table work.old.call }
        requires undecided { IsUndecided work.old.call }
        requires unanswered { work.old.answer ≡ None }
        ensures same { self.new.table ≡ self.old.table }
        ensures on { (asked : Call) → OnWay self.old.table asked work.old → IfOk result (λ _. OnWay self.new.table asked work.new) }
        ensures less { IfOk result (λ _. steps_left work.new < steps_left work.old) }
    {
        let call = work.call;
        let var = self.top(call);
        work.waiting.push(Frame {
            call,
            var,
            low: None,
        })?;
        work.call = self.cofactor(call, var, false);
        work.answer = self.known(work.call);
        Ok(())
    }

    /// Goes on to the high cofactor of a call whose low cofactor is d.
    fn turn(&mut self, call: Call, var: u32, d: DdId, work: &mut Work) -> Result<(), AllocError>
        requires has { Has self.old.table call }
        requires top { IsTop self.old.table var call }
        requires low { IsLow self.old.table var call d }
        ensures same { self.new.table ≡ self.old.table }
        ensures on { (asked : Call) → Chained self.old.table asked work.old.waiting.items call → IfOk result (λ _. OnWay self.new.table asked work.new) }
        ensures less { IfOk result (λ _. steps_left work.new < all_steps work.old.waiting.items + steps (size call - 1) + 2) }
    {
        work.waiting.push(Frame {
            call,
            var,
            low: Some(d),
        })?;
        work.call = self.cofactor(call, var, true);
        work.answer = self.known(work.call);
        Ok(())
    }

    /// The number of the function that is `high` where the variable is true, else `low`.
    fn make(&mut self, var: u32, low: DdId, high: DdId) -> Result<DdId, AllocError>
        requires variable { var < self.old.table.vars }
        requires low_below { low.0 < count self.old.table }
        requires high_below { high.0 < count self.old.table }
        requires low_later { var < level_in self.old.table low.0 }
        requires high_later { var < level_in self.old.table high.0 }
        ensures extends { Extends self.old.table self.new.table }
        ensures made { IfOk result (λ d. IsMade self.new.table var low.0 high.0 d.0) }
    {
        self.table.make(var, low, high)
    }

    /// Keeps the answer to a call.
    fn keep(&mut self, call: Call, d: DdId) -> Result<(), AllocError>
        requires has { Has self.old.table call }
        requires right { IsAnswer self.old.table call d }
        ensures same { self.new.table ≡ self.old.table }
    {
        self.results.insert(call, d)?;
        Ok(())
    }

    /// Answers a call of which both cofactors are known.
    fn finish(&mut self, call: Call, var: u32, low: DdId, high: DdId) -> Result<DdId, AllocError>
        requires has { Has self.old.table call }
        requires top { IsTop self.old.table var call }
        requires low { IsLow self.old.table var call low }
        requires high { IsHigh self.old.table var call high }
        ensures extends { Extends self.old.table self.new.table }
        ensures answer { IfOk result (IsAnswer self.new.table call) }
    {
        let made = self.make(var, low, high)?;
        self.keep(call, made)?;
        Ok(made)
    }

    /// Goes on from the answer to what the frame waits for.
    fn leave(&mut self, frame: Frame, d: DdId, work: &mut Work) -> Result<(), AllocError>
        requires awaits { Awaits self.old.table frame work.old.call }
        requires answer { IsAnswer self.old.table work.old.call d }
        ensures extends { Extends self.old.table self.new.table }
        ensures on { (asked : Call) → Chained self.old.table asked work.old.waiting.items frame.call → IfOk result (λ _. OnWay self.new.table asked work.new) }
        ensures less { IfOk result (λ _. steps_left work.new < all_steps work.old.waiting.items + frame_steps frame) }
    {
        let Frame { call, var, low } = frame;
        match low {
            None => self.turn(call, var, d, work),
            Some(low) => {
                let made = self.finish(call, var, low, d)?;
                work.call = call;
                work.answer = Some(made);
                Ok(())
            }
        }
    }

    /// The number of the function that the call asks for.
    pub fn solve(&mut self, alloc: Global, asked: Call) -> Result<DdId, AllocError>
        requires { Has self.old.table asked }
        ensures extends { Extends self.old.table self.new.table }
        ensures answer { IfOk result (IsAnswer self.new.table asked) }
        ensures means { IfOk result (λ d. Carries self.new.table d.0 (λ reading. call_value reading.values asked)) }
    {
        let answer = self.known(asked);
        let mut work = Work {
            waiting: Vec::new(alloc),
            call: asked,
            answer,
        };
        'answering: loop {
            match work.answer {
                None => self.enter(&mut work)?,
                Some(d) => match work.waiting.pop() {
                    None => return Ok(d),
                    Some(frame) => self.leave(frame, d, &mut work)?,
                },
            }
        }
    }

    /// The number of the function that is the variable's bit.
    pub fn var(&mut self, v: u32) -> Result<DdId, AllocError>
        requires { v < self.old.table.vars }
        ensures extends { Extends self.old.table self.new.table }
        ensures below { IfOk result (λ d. d.0 < count self.new.table) }
        ensures value { IfOk result (λ d. (bits : List Bool) → value_in self.new.table d.0 bits ≡ slice_index_or bits v false) }
        ensures means { IfOk result (λ d. Carries self.new.table d.0 (λ reading. slice_index_or reading.bits v false)) }
    {
        let made = self.make(v, DdId(0), DdId(1))?;
        Ok(made)
    }
}
