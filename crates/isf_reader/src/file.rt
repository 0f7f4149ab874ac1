//! The sections of a symbol file, before it is known how deep anonymous fields nest.
ghost use Rattle.std.specs.Prelude.{◌≡◌, ◌⊎◌, ℕ, List, false, Some, None, Ok, option_map, bytes_eq, IfOk, IfErr, codes};
ghost use Rattle.serde_json.specs.Find.{get_member};
ghost use Rattle.serde_json.specs.View.{view, members_view};
ghost use Rattle.isf_reader.specs.Lists.{table_view};
ghost use Rattle.isf_reader.specs.Sections.{section_of};
ghost use Rattle.isf_reader.specs.Table.{in_section, sections_of, file_of, tree_of, RefusesAs};

use crate::section::{Fault, SectionEntry, section_of};
use crate::{BaseType, EnumType, IsfRefusal, Key, Section, Symbol, UserType};
use layer_base::Name;
use serde_json::{Map, Value};
use std::alloc::{AllocError, Global};

// What stands at the keys of the four sections.
#[derive(Drop)]
struct Parts {
    bases: Option<Value>,
    enums: Option<Value>,
    users: Option<Value>,
    symbols: Option<Value>,
}

// Takes out what stands at a key.
fn take(root: &mut Map<String, Value>, key: &str) -> Option<Value>
    ensures value { option_map view result ≡ get_member key.now (members_view root.old.entries) }
    ensures others { (other : List ℕ) → bytes_eq other key.now ≡ false
        → get_member other (members_view root.new.entries) ≡ get_member other (members_view root.old.entries) }
{
    root.remove(key)
}

// Takes the four sections out of a file.
fn parts_of(mut root: Map<String, Value>) -> Parts
    ensures bases { option_map view result.bases ≡ get_member (codes "base_types") (members_view root.entries) }
    ensures enums { option_map view result.enums ≡ get_member (codes "enums") (members_view root.entries) }
    ensures users { option_map view result.users ≡ get_member (codes "user_types") (members_view root.entries) }
    ensures symbols { option_map view result.symbols ≡ get_member (codes "symbols") (members_view root.entries) }
{
    let bases = take(&mut root, "base_types");
    let enums = take(&mut root, "enums");
    let users = take(&mut root, "user_types");
    let symbols = take(&mut root, "symbols");
    Parts {
        bases,
        enums,
        users,
        symbols,
    }
}

// The entries of the four sections, by their names in byte order.
#[derive(Debug, Drop)]
pub(crate) struct Lists {
    pub bases: Vec<(Name, BaseType)>,
    pub enums: Vec<(Name, EnumType)>,
    pub users: Vec<(Name, UserType)>,
    pub symbols: Vec<(Name, Symbol)>,
}

// The entries of a section. A fault is told with the section.
fn in_section<E: SectionEntry>(
    alloc: Global,
    section: Section,
    value: Option<Value>,
) -> Result<Vec<(Name, E)>, IsfRefusal>
    ensures ok { IfOk result (λ entries. in_section section (section_of E.reads (option_map view value)) ≡ Ok entries.items) }
    ensures err { IfErr result (RefusesAs (in_section section (section_of E.reads (option_map view value)))) }
{
    match section_of::<E>(alloc, value) {
        Ok(Ok(entries)) => Ok(entries),
        Ok(Err(Fault { name, key })) => Err(IsfRefusal::BadEntry { section, name, key }),
        Err(AllocError) => Err(IsfRefusal::Memory),
    }
}

// The entries of the four sections, read in this order.
fn lists_of(alloc: Global, parts: Parts) -> Result<Lists, IsfRefusal>
    ensures ok { IfOk result (λ lists. sections_of (option_map view parts.bases) (option_map view parts.enums) (option_map view parts.users) (option_map view parts.symbols)
        ≡ Ok (table_view lists)) }
    ensures err { IfErr result (RefusesAs
        (sections_of (option_map view parts.bases) (option_map view parts.enums) (option_map view parts.users) (option_map view parts.symbols))) }
{
    let Parts {
        bases,
        enums,
        users,
        symbols,
    } = parts;
    let bases = in_section(alloc, Section::BaseTypes, bases)?;
    let enums = in_section(alloc, Section::Enums, enums)?;
    let users = in_section(alloc, Section::UserTypes, users)?;
    let symbols = in_section(alloc, Section::Symbols, symbols)?;
    Ok(Lists {
        bases,
        enums,
        users,
        symbols,
    })
}

// The entries of a file.
pub(crate) fn file_of(alloc: Global, root: Value) -> Result<Lists, IsfRefusal>
    ensures ok { IfOk result (λ lists. file_of (view root) ≡ Ok (table_view lists)) }
    ensures err { IfErr result (RefusesAs (file_of (view root))) }
{
    match root {
        Value::Object(root) => lists_of(alloc, parts_of(root)),
        _ => Err(IsfRefusal::BadEntry {
            section: Section::File,
            name: Name::new(alloc),
            key: Key::Whole,
        }),
    }
}

// The JSON value that bytes are.
pub(crate) fn tree_of(alloc: Global, json: &[u8]) -> Result<Value, IsfRefusal>
    ensures ok { IfOk result (λ root. tree_of json.now ≡ Some (view root)) }
    ensures err { IfErr result (λ e. (e ≡ IsfRefusal.Memory) ⊎ ((e ≡ IsfRefusal.NotJson) × (tree_of json.now ≡ None))) }
{
    match Value::from_slice(alloc, json) {
        Ok(root) => Ok(root),
        Err(e) => {
            if e.is_memory() {
                Err(IsfRefusal::Memory)
            } else {
                Err(IsfRefusal::NotJson)
            }
        }
    }
}
