//! Verdicts as nets: what the writers to a variable come to.

ghost use Rattle.std.specs.Prelude.{◌≡◌, ◌&&◌, ◌||◌, not, IfOk, OnOk, if◌then◌else◌};
ghost use Rattle.qz_values.specs.declared.Ty.TheVariants.{Bool as Truth};
ghost use Rattle.qz_values.specs.declared.Know.{Know};
ghost use Rattle.qz_values.specs.Types.{IsType};
ghost use Rattle.qz_values.specs.Values.{is_yes};
ghost use Rattle.qz_syntax.specs.declared.declarations.Class.{Class};
ghost use Rattle.qz_syntax.specs.declared.places.Store.{Store};
ghost use Rattle.qz_verilog.specs.Validity.{IsNetOf};
ghost use Rattle.qz_verilog.specs.Meaning.{Nets, value_at};
ghost use Rattle.qz_meaning.specs.Verdicts.{Verdict, Nobody, join, verdict_of_one};
ghost use Rattle.qz_meaning.specs.Settling.{with_pending, unwritten, settled};
ghost use Rattle.qz_wires.specs.WireTable.{types_in, Reads, Extends, CarriesFlag};
ghost use Rattle.qz_wires.specs.Rails.{Shows, IsRail};
ghost use Rattle.qz_equations.specs.Tallies.{ShowsVerdict, IsTally, ShowsStore, IsStoreOf};

use qz_values::{Ty, Value};
use qz_verilog::Ref;
use qz_wires::{Rail, Wires};
use std::alloc::AllocError;

/// A verdict: whether some enabled writer has a known value, that value, and whether no writer is
/// enabled.
#[derive(Clone, Copy, Debug)]
pub struct Tally {
    pub decided: Ref,
    pub value: Ref,
    pub idle: Ref,
}

/// The nets of a store: whether its value is a pending one, and the value.
#[derive(Clone, Copy, Debug)]
pub struct StoreNets {
    pub mark: Ref,
    pub value: Ref,
}

/// No writer.
pub fn nobody(wires: &mut Wires, ty: Ty) -> Result<Tally, AllocError>
    requires { IsType ty }
    ensures extends { OnOk result (Extends wires.old wires.new) }
    ensures typed { IfOk result (λ tally. IsTally (types_in wires.new) ty tally) }
    ensures means { IfOk result (λ tally. (nets : Nets) → Reads nets wires.new → ShowsVerdict nets tally Nobody) }
{
    let decided = wires.flag(false)?;
    let idle = wires.flag(true)?;
    let value = wires.constant(Value::zero_of(ty))?;
    Ok(Tally {
        decided,
        value,
        idle,
    })
}

/// Whether a writer is known to be enabled, and its value known.
fn writes(wires: &mut Wires, ty: Ty, guard: Rail, value: Rail) -> Result<Ref, AllocError>
    requires guard { IsRail (types_in wires.old) Truth guard }
    requires value { IsRail (types_in wires.old) ty value }
    ensures extends { OnOk result (Extends wires.old wires.new) }
    ensures typed { IfOk result (λ net. IsNetOf (types_in wires.new) Truth net) }
    ensures means { IfOk result (λ net. CarriesFlag wires.new net (λ nets.
        is_yes (value_at nets guard.known) && (is_yes (value_at nets guard.value) && is_yes (value_at nets value.known)))) }
{
    let on = wires.and(guard.value, value.known)?;
    let net = wires.and(guard.known, on)?;
    Ok(net)
}

/// Whether a writer is known not to be enabled.
fn is_silent(wires: &mut Wires, guard: Rail) -> Result<Ref, AllocError>
    requires { IsRail (types_in wires.old) Truth guard }
    ensures extends { OnOk result (Extends wires.old wires.new) }
    ensures typed { IfOk result (λ net. IsNetOf (types_in wires.new) Truth net) }
    ensures means { IfOk result (λ net. CarriesFlag wires.new net (λ nets.
        is_yes (value_at nets guard.known) && not (is_yes (value_at nets guard.value)))) }
{
    let off = wires.not(guard.value)?;
    let net = wires.and(guard.known, off)?;
    Ok(net)
}

/// One writer more.
pub fn one_more(
    wires: &mut Wires,
    ty: Ty,
    so_far: Tally,
    guard: Rail,
    value: Rail,
) -> Result<Tally, AllocError>
    requires so_far { IsTally (types_in wires.old) ty so_far }
    requires guard { IsRail (types_in wires.old) Truth guard }
    requires value { IsRail (types_in wires.old) ty value }
    ensures extends { OnOk result (Extends wires.old wires.new) }
    ensures typed { IfOk result (λ tally. IsTally (types_in wires.new) ty tally) }
    ensures means { IfOk result (λ tally. (nets : Nets) → Reads nets wires.new → (k : Verdict) (p q : Know) →
        ShowsVerdict nets so_far k → Shows nets guard p → Shows nets value q →
        ShowsVerdict nets tally (join k (verdict_of_one p q))) }
{
    let on = writes(wires, ty, guard, value)?;
    let off = is_silent(wires, guard)?;
    let decided = wires.or(so_far.decided, on)?;
    let chosen = wires.choose(ty, so_far.decided, so_far.value, value.value)?;
    let idle = wires.and(so_far.idle, off)?;
    Ok(Tally {
        decided,
        value: chosen,
        idle,
    })
}

/// The verdict on what is pending in a store and on the writers.
pub fn pending_with(
    wires: &mut Wires,
    ty: Ty,
    store: StoreNets,
    writers: Tally,
) -> Result<Tally, AllocError>
    requires store { IsStoreOf (types_in wires.old) ty store }
    requires writers { IsTally (types_in wires.old) ty writers }
    ensures extends { OnOk result (Extends wires.old wires.new) }
    ensures typed { IfOk result (λ tally. IsTally (types_in wires.new) ty tally) }
    ensures means { IfOk result (λ tally. (nets : Nets) → Reads nets wires.new → (held : Store) (k : Verdict) →
        ShowsStore nets store held → ShowsVerdict nets writers k → ShowsVerdict nets tally (with_pending held k)) }
{
    let free = wires.not(store.mark)?;
    let decided = wires.or(store.mark, writers.decided)?;
    let value = wires.choose(ty, store.mark, store.value, writers.value)?;
    let idle = wires.and(free, writers.idle)?;
    Ok(Tally {
        decided,
        value,
        idle,
    })
}

/// What a variable settles to by a verdict. `otherwise` is its value where nobody writes it.
pub fn settled(wires: &mut Wires, ty: Ty, tally: Tally, otherwise: Ref) -> Result<Rail, AllocError>
    requires tally { IsTally (types_in wires.old) ty tally }
    requires otherwise { IsNetOf (types_in wires.old) ty otherwise }
    ensures extends { OnOk result (Extends wires.old wires.new) }
    ensures typed { IfOk result (λ rail. IsRail (types_in wires.new) ty rail) }
    ensures means { IfOk result (λ rail. (nets : Nets) → Reads nets wires.new → (class : Class) (held : Store) (k : Verdict) →
        value_at nets otherwise ≡ unwritten class ty held → ShowsVerdict nets tally k →
        Shows nets rail (settled class ty held k)) }
{
    let known = wires.or(tally.decided, tally.idle)?;
    let value = wires.choose(ty, tally.decided, tally.value, otherwise)?;
    Ok(Rail { known, value })
}
