//! The rows, by what their programs do.

use crate::forms::FORMS;
use crate::reactions::{self, Reaction};
use crate::rows;
use crate::runs::{self, Row};
use std::alloc::Global;
use std::process::Abort;
use std::test::Fail;

/// That each row's program does what the row says.
fn run_as_said(rt: &impl Abort, alloc: Global, rows: &[Row]) -> Result<(), Fail> {
    for row in rows {
        let text = runs::text_of(alloc, row)?;
        assert_eq!(rt; text.as_str(), row.text);
    }
    Ok(())
}

/// That each row's statement does what the row says.
fn react_as_said(rt: &impl Abort, alloc: Global, rows: &[Reaction]) -> Result<(), Fail> {
    for row in rows {
        let text = reactions::text_of(alloc, row)?;
        assert_eq!(rt; text.as_str(), row.text);
    }
    Ok(())
}

#[test]
fn an_event_has_its_default(rt: HostRuntime) -> Result<(), Fail> {
    run_as_said(&rt, rt.alloc(), &rows::NOTHING)
}

#[test]
fn waits_for_both_and_is_reset(rt: HostRuntime) -> Result<(), Fail> {
    run_as_said(&rt, rt.alloc(), &rows::ABRO)
}

#[test]
fn a_local_is_new_in_each_turn(rt: HostRuntime) -> Result<(), Fail> {
    run_as_said(&rt, rt.alloc(), &rows::LOCAL)
}

#[test]
fn three_instances_of_a_local_live_in_one_step(rt: HostRuntime) -> Result<(), Fail> {
    run_as_said(&rt, rt.alloc(), &rows::NESTED)
}

#[test]
fn a_cycle_is_broken_by_its_conditions(rt: HostRuntime) -> Result<(), Fail> {
    run_as_said(&rt, rt.alloc(), &rows::CROSSED)
}

#[test]
fn a_pending_value_is_a_writer(rt: HostRuntime) -> Result<(), Fail> {
    run_as_said(&rt, rt.alloc(), &rows::PENDING)
}

#[test]
fn equal_values_do_not_clash(rt: HostRuntime) -> Result<(), Fail> {
    run_as_said(&rt, rt.alloc(), &rows::TWICE)
}

#[test]
fn aborts_act_by_their_kinds(rt: HostRuntime) -> Result<(), Fail> {
    run_as_said(&rt, rt.alloc(), &rows::ABORTS)
}

#[test]
fn suspends_stay_by_their_kinds(rt: HostRuntime) -> Result<(), Fail> {
    run_as_said(&rt, rt.alloc(), &rows::SUSPENDS)
}

#[test]
fn a_sum_is_cut_to_its_width(rt: HostRuntime) -> Result<(), Fail> {
    run_as_said(&rt, rt.alloc(), &rows::OVERFLOW)
}

#[test]
fn no_side_is_entered_before_it_is_chosen(rt: HostRuntime) -> Result<(), Fail> {
    run_as_said(&rt, rt.alloc(), &rows::BUSY)
}

#[test]
fn each_form_does_what_it_has_to(rt: HostRuntime) -> Result<(), Fail> {
    react_as_said(&rt, rt.alloc(), &FORMS)
}
