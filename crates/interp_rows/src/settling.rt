//! What a variable settles to, by hand.

use qz_interp::{Entry, Slot, Tally};
use qz_syntax::{Class, Later, Store};
use qz_values::{Know, Ty, Value};
use std::alloc::Global;
use std::test::Fail;

/// A store with or without mark, the values of enabled writers in their order, and what comes of it.
struct Row {
    class: Class,
    kept: u64,
    pending: bool,
    writers: &'static [u64],
    now: Option<u64>,
}

const ROWS: [Row; 8] = [
    Row {
        class: Class::Event,
        kept: 7,
        pending: false,
        writers: &[],
        now: Some(0),
    },
    Row {
        class: Class::Mem,
        kept: 7,
        pending: false,
        writers: &[],
        now: Some(7),
    },
    Row {
        class: Class::Event,
        kept: 7,
        pending: true,
        writers: &[],
        now: Some(7),
    },
    Row {
        class: Class::Mem,
        kept: 7,
        pending: false,
        writers: &[3],
        now: Some(3),
    },
    Row {
        class: Class::Mem,
        kept: 7,
        pending: false,
        writers: &[3, 3],
        now: Some(3),
    },
    Row {
        class: Class::Mem,
        kept: 7,
        pending: false,
        writers: &[3, 4],
        now: None,
    },
    Row {
        class: Class::Mem,
        kept: 3,
        pending: true,
        writers: &[3],
        now: Some(3),
    },
    Row {
        class: Class::Mem,
        kept: 7,
        pending: true,
        writers: &[3],
        now: None,
    },
];

fn byte(bits: u64) -> Result<Value, Fail> {
    Ok(Value::new(Ty::Bv(8), bits).ok_or("no value")?)
}

/// The number that is known, or none where there is a clash.
fn number_of(known: Know) -> Result<Option<u64>, Fail> {
    match known {
        Know::Known(v) => Ok(Some(v.bits())),
        Know::Clash => Ok(None),
        Know::Unknown => Err(Fail::from("unknown")),
    }
}

fn slot(row: &Row) -> Result<Slot, Fail> {
    let store = Store {
        value: byte(row.kept)?,
        pending: row.pending,
    };
    Ok(Slot {
        class: row.class,
        default: byte(0)?,
        entry: Entry::Kept(store),
    })
}

fn tally(alloc: Global, writers: &[u64]) -> Result<Tally, Fail> {
    let yes = Know::Known(Value::truth(true));
    let no = Know::Known(Value::truth(false));
    let mut tally = Tally::make(alloc, 1)?;
    tally.add(0, no, Know::Known(byte(9)?));
    for bits in writers {
        tally.add(0, yes, Know::Known(byte(*bits)?));
    }
    Ok(tally)
}

#[test]
fn variables_settle(rt: HostRuntime) -> Result<(), Fail> {
    for row in &ROWS {
        let writers = tally(rt.alloc(), row.writers)?;
        let now = slot(row)?.value(writers.at(0));
        assert_eq!(rt; number_of(now)?, row.now);
    }
    Ok(())
}

#[test]
fn nobody_leaves_no_delayed_value(rt: HostRuntime) -> Result<(), Fail> {
    let writers = tally(rt.alloc(), &[])?;
    let slot = Slot {
        class: Class::Mem,
        default: byte(0)?,
        entry: Entry::New,
    };
    assert_eq!(rt; slot.delayed(writers.at(0)), Later::Absent);
    Ok(())
}
