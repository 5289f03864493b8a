//! A list of names and bytes, of which the first entry with a name counts.
ghost use Rattle.std.specs.Prelude.{◌≡◌, ◌≢◌, ℕ, ◌<◌, ◌≤◌, ◌↔◌, List, Some, None, length, IsSomeAnd, IfOk, OnOk, OnErr};
ghost use Rattle.std.specs.Option.{option_copied};
ghost use Rattle.std.specs.List.{position};
ghost use Rattle.qz_io.specs.Answers.{OnFailed, IsAbsent, IsTooLong, IfBytes};
ghost use Rattle.qz_io.specs.Entries.{has_name, held_in};

use crate::answers::{FileFault, Got};
use std::alloc::Global;

/// What `get` answers where it does not fail: the bytes of the first entry with this name.
pub(crate) fn get_entry(
    alloc: Global,
    entries: &[(String, Vec<u8>)],
    name: &str,
    max: u64,
) -> Result<Got, FileFault>
    ensures absent { IfOk result (λ got. IsAbsent got ↔ (held_in entries.now name.now ≡ None)) }
    ensures too_long { IfOk result (λ got. IsTooLong got ↔
        IsSomeAnd (held_in entries.now name.now) (λ bytes. max < length bytes)) }
    ensures bytes { IfOk result (λ got. IfBytes got (λ bytes. held_in entries.now name.now ≡ Some bytes)) }
    ensures within { IfOk result (λ got. IfBytes got (λ bytes. length bytes ≤ max)) }
    ensures never_fails { OnFailed result ⊥ }
{
    match bytes_of(entries, name) {
        None => Ok(Got::Absent),
        Some(bytes) if bytes.len() as u64 > max => Ok(Got::TooLong),
        Some(bytes) => Ok(Got::Bytes(bytes.to_vec(alloc)?)),
    }
}

/// The bytes of the first entry with this name.
fn bytes_of<'a>(entries: &'a [(String, Vec<u8>)], name: &str) -> Option<&'a [u8]>
    ensures { option_copied result ≡ held_in entries.now name.now }
{
    let entry = entries.iter().find(|entry| entry.0.as_str() == name)?;
    Some(entry.1.as_slice())
}

/// Puts the bytes in place of those of the first entry with this name, or else at the end.
pub(crate) fn put_entry(
    alloc: Global,
    entries: &mut Vec<(String, Vec<u8>)>,
    name: &str,
    bytes: &[u8],
) -> Result<(), FileFault>
    ensures put { OnOk result (held_in entries.new.items name.now ≡ Some bytes.now) }
    ensures others { (other : List ℕ) → other ≢ name.now →
        held_in entries.new.items other ≡ held_in entries.old.items other }
    ensures err { OnErr result (entries.new.items ≡ entries.old.items) }
    ensures never_fails { OnFailed result ⊥ }
{
    let content = bytes.to_vec(alloc)?;
    match place_of(entries, name) {
        Some(place) => {
            let entry = &mut entries[place];
            entry.1 = content;
        }
        None => {
            let key = String::from_str(alloc, name)?;
            entries.push((key, content))?;
        }
    }
    Ok(())
}

/// Where the first entry with this name stands.
fn place_of(entries: &[(String, Vec<u8>)], name: &str) -> Option<usize>
    ensures { result ≡ position (has_name name.now) entries.now }
{
    entries.iter().position(|entry| entry.0.as_str() == name)
}
