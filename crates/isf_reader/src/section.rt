//! A section of a symbol file: an object of entries.
ghost use Rattle.std.specs.Prelude.{◌≡◌, ℕ, List, [], Result, option_map, IfOk};
ghost use Rattle.serde_json.specs.Data.{Data};
ghost use Rattle.serde_json.specs.View.{view, members_view};
ghost use Rattle.isf_reader.specs.Entry.{entry_of};
ghost use Rattle.isf_reader.specs.Sections.{entries_onto, section_in, section_of, told};
ghost use Rattle.isf_reader.specs.declared.refusal.Key.{Key};

use crate::Key;
use layer_base::Name;
use serde_json::{Map, Value};
use std::alloc::{AllocError, Global};

// What a section has entries of.
pub(crate) trait SectionEntry: Drop + Sized {
    ghost reads: { List ℕ → Data → Result Self Key };

    // Reads the entry of that name, or gives its first key at fault.
    fn read(alloc: Global, name: &[u8], entry: Value) -> Result<Result<Self, Key>, AllocError>
        ensures { IfOk result (λ read. read ≡ reads name.now (view entry)) };
}

// The first key at fault, and the name of its entry.
#[derive(Debug, Drop)]
pub(crate) struct Fault {
    pub name: Name,
    pub key: Key,
}

// Reads an entry, which is an object.
fn entry_of<E: SectionEntry>(
    alloc: Global,
    name: &[u8],
    entry: Value,
) -> Result<Result<E, Key>, AllocError>
    ensures { IfOk result (λ read. read ≡ entry_of E.reads name.now (view entry)) }
{
    if entry.is_object() {
        E::read(alloc, name, entry)
    } else {
        Ok(Err(Key::Whole))
    }
}

// The entries that the members of an object are, or the first at fault. The members stand in the order of their names,
// so each entry goes last.
fn entries_in<E: SectionEntry>(
    alloc: Global,
    members: Map<String, Value>,
) -> Result<Result<Vec<(Name, E)>, Fault>, AllocError>
    ensures { IfOk result (λ read. told read ≡ entries_onto E.reads [] (members_view members.entries)) }
{
    let mut found = Vec::with_capacity(alloc, members.len())?;
    for (name, member) in members {
        let read = entry_of::<E>(alloc, name.as_bytes(), member)?;
        let name = Name::from(name.into_bytes());
        match read {
            Ok(entry) => found.push((name, entry))?,
            Err(key) => return Ok(Err(Fault { name, key })),
        }
    }
    Ok(Ok(found))
}

// Reads a section from what stands at its key.
fn section_in<E: SectionEntry>(
    alloc: Global,
    section: Value,
) -> Result<Result<Vec<(Name, E)>, Fault>, AllocError>
    ensures { IfOk result (λ read. told read ≡ section_in E.reads (view section)) }
{
    match section {
        Value::Null => Ok(Ok(Vec::new(alloc))),
        Value::Object(members) => entries_in(alloc, members),
        _ => Ok(Err(Fault {
            name: Name::new(alloc),
            key: Key::Whole,
        })),
    }
}

// Reads a section, which may be missing, or gives the first of its entries at fault.
pub(crate) fn section_of<E: SectionEntry>(
    alloc: Global,
    section: Option<Value>,
) -> Result<Result<Vec<(Name, E)>, Fault>, AllocError>
    ensures { IfOk result (λ read. told read ≡ section_of E.reads (option_map view section)) }
{
    match section {
        Some(section) => section_in(alloc, section),
        None => Ok(Ok(Vec::new(alloc))),
    }
}
