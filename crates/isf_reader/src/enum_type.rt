//! Enums and their constants.
ghost use Rattle.std.specs.Prelude.{◌≡◌, [], ◌∷◌, ◌++◌, map, option_map, IfOk, OnOk, OnErr};
ghost use Rattle.std.specs.BTreeSet.{insert_key};
ghost use Rattle.serde_json.specs.View.{view, members_view};
ghost use Rattle.isf_reader.specs.Enums.{by_value, constant_at, values_onto, constants_in, constants_of, enum_of};

use crate::Key;
use crate::json::{count_at, integer_of, taken_given, text_at};
use crate::section::SectionEntry;
use layer_base::Name;
use serde_json::{Map, Value};
use std::alloc::{AllocError, Global};
use std::collections::BTreeSet;
use std::marker::Model;

/// A named value of an enum.
#[derive(Debug, Drop)]
pub struct Constant {
    pub name: Name,
    pub value: i128,
}

/// A list of constants.
#[derive(Debug, Drop)]
pub struct Constants {
    items: Vec<Constant>,
}

impl Model for Constants {
    ghost use Rattle.std.specs.Prelude.{List};
    ghost use Rattle.isf_reader.specs.declared.enum_type.Constant.{Constant};

    ghost Value = { List Constant };

    ghost view = { λ constants. constants.items.items };
}

impl Constants {
    /// The empty list, which takes no memory.
    pub fn new(alloc: Global) -> Self
        ensures { result ≡ [] }
    {
        Constants {
            items: Vec::new(alloc),
        }
    }

    /// Puts a constant at the end. When out of memory, the list stays as it was.
    pub fn add(&mut self, constant: Constant) -> Result<(), AllocError>
        ensures ok { OnOk result (self.new ≡ self.old ++ constant ∷ []) }
        ensures err { OnErr result (self.new ≡ self.old) }
    {
        self.items.push(constant)?;
        Ok(())
    }

    /// The constants.
    pub fn items(&self) -> &[Constant]
        ensures { result.now ≡ self.now }
    {
        &self.items
    }
}

/// An enum: its size in bytes, the name of its base type, and its constants.
#[derive(Debug, Drop)]
pub struct EnumType {
    pub size: u64,
    pub base: Name,
    pub constants: Constants,
}

// Puts a value and its name where they belong.
fn put(found: &mut BTreeSet<(i128, Name)>, value: i128, name: Name) -> Result<(), AllocError>
    ensures { OnOk result (found.new.keys ≡ insert_key by_value found.old.keys (value, name)) }
{
    found.insert((value, name))?;
    Ok(())
}

// The values and names of the members of an object. None where one is no whole number.
fn values_in(
    alloc: Global,
    members: Map<String, Value>,
) -> Result<Option<BTreeSet<(i128, Name)>>, AllocError>
    ensures { IfOk result (λ found. option_map (λ s. s.keys) found ≡ values_onto [] (members_view members.entries)) }
{
    let mut found = BTreeSet::new(alloc);
    for (name, member) in members {
        let Some(value) = integer_of(&member) else {
            return Ok(None);
        };
        put(&mut found, value, Name::from(name.into_bytes()))?;
    }
    Ok(Some(found))
}

// Constants from their values and names.
fn constants_from(alloc: Global, found: BTreeSet<(i128, Name)>) -> Result<Constants, AllocError>
    ensures { IfOk result (λ constants. constants ≡ map constant_at found.keys) }
{
    let mut constants = Constants {
        items: Vec::with_capacity(alloc, found.len())?,
    };
    for (value, name) in found {
        constants.add(Constant { name, value })?;
    }
    Ok(constants)
}

// The constants of an object of whole numbers.
fn constants_in(alloc: Global, members: Map<String, Value>) -> Result<Option<Constants>, AllocError>
    ensures { IfOk result (λ constants. constants ≡ constants_in (members_view members.entries)) }
{
    match values_in(alloc, members)? {
        Some(found) => Ok(Some(constants_from(alloc, found)?)),
        None => Ok(None),
    }
}

// The constants of an enum; the empty list where the key is missing or null.
fn constants_of(alloc: Global, value: Option<Value>) -> Result<Option<Constants>, AllocError>
    ensures { IfOk result (λ constants. constants ≡ constants_of (option_map view value)) }
{
    let Some(value) = value else {
        return Ok(Some(Constants::new(alloc)));
    };
    match value {
        Value::Object(members) => constants_in(alloc, members),
        _ => Ok(None),
    }
}

// Reads an enum, or gives its first key at fault.
fn enum_of(alloc: Global, mut entry: Value) -> Result<Result<EnumType, Key>, AllocError>
    ensures { IfOk result (λ read. read ≡ enum_of (view entry)) }
{
    let Some(size) = count_at(&entry, "size") else {
        return Ok(Err(Key::Size));
    };
    let Some(base) = text_at(&entry, "base") else {
        return Ok(Err(Key::Base));
    };
    let base = Name::of(alloc, base.as_bytes())?;
    let Some(constants) = constants_of(alloc, taken_given(&mut entry, "constants"))? else {
        return Ok(Err(Key::Constants));
    };
    Ok(Ok(EnumType {
        size,
        base,
        constants,
    }))
}

impl SectionEntry for EnumType {
    ghost reads = { λ name. enum_of };

    fn read(
        alloc: Global,
        _name: &[u8],
        entry: Value,
    ) -> Result<Result<EnumType, Key>, AllocError> {
        enum_of(alloc, entry)
    }
}
