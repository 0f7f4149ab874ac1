//! User types and their fields.
ghost use Rattle.std.specs.Prelude.{◌≡◌, [], ◌∷◌, ◌++◌, map, option_map, string_bytes, IfOk, OnOk, OnErr};
ghost use Rattle.serde_json.specs.View.{view, members_view};
ghost use Rattle.isf_reader.specs.UserTypes.{user_kind_of, flag_or_false, placed_of, fields_onto, field_at, fields_in, fields_of, user_of};

use crate::json::{count_at, given, taken_given, text_at};
use crate::section::SectionEntry;
use crate::type_of::type_at;
use crate::{Key, TypeRef};
use layer_base::Name;
use serde_json::{Map, Value};
use std::alloc::{AllocError, Global};
use std::collections::BTreeMap;
use std::marker::Model;

/// Which of the three a user type is.
#[derive(Clone, Copy, Debug, PartialEq, Eq)]
pub enum UserKind {
    Struct,
    Union,
    Class,
}

/// A field of a user type: its name, its offset in bytes and its type. The fields of an anonymous one count as fields
/// of the type around it too.
#[derive(Debug, Drop)]
pub struct Field {
    pub name: Name,
    pub offset: u64,
    pub of: TypeRef,
    pub anonymous: bool,
}

/// A list of fields.
#[derive(Debug, Drop)]
pub struct Fields {
    items: Vec<Field>,
}

impl Model for Fields {
    ghost use Rattle.std.specs.Prelude.{List};
    ghost use Rattle.isf_reader.specs.declared.user_type.Field.{Field};
    ghost use Rattle.std.specs.Coded.{coded_list};
    ghost use Rattle.isf_reader.specs.contracts.user_type.Field as field;

    ghost Value = { List Field };

    ghost coded = { coded_list field.the_row.coded };

    ghost view = { λ fields. fields.items.items };
}

impl Fields {
    /// The empty list, which takes no memory.
    pub fn new(alloc: Global) -> Self
        ensures { result ≡ [] }
    {
        Fields {
            items: Vec::new(alloc),
        }
    }

    /// Puts a field at the end. When out of memory, the list stays as it was.
    pub fn add(&mut self, field: Field) -> Result<(), AllocError>
        ensures ok { OnOk result (self.new ≡ self.old ++ field ∷ []) }
        ensures err { OnErr result (self.new ≡ self.old) }
    {
        self.items.push(field)?;
        Ok(())
    }

    /// The fields.
    pub fn items(&self) -> &[Field]
        ensures { result.now ≡ self.now }
    {
        &self.items
    }
}

/// A user type: its size in bytes, its kind, and its fields.
#[derive(Debug, Drop)]
pub struct UserType {
    pub size: u64,
    pub kind: UserKind,
    pub fields: Fields,
}

#[tactic(auto, unfolding(crate::specs::UserTypes::user_kind_of))]
fn user_kind_of(text: &str) -> Option<UserKind>
    ensures { result ≡ user_kind_of text.now }
{
    if text == "struct" {
        Some(UserKind::Struct)
    } else if text == "union" {
        Some(UserKind::Union)
    } else if text == "class" {
        Some(UserKind::Class)
    } else {
        None
    }
}

// True or false; false where the key is missing or null.
fn flag_or_false(value: Option<&Value>) -> Option<bool>
    ensures { result ≡ flag_or_false (option_map (λ v. view v.now) value.entry) }
{
    match value {
        Some(value) => value.as_bool(),
        None => Some(false),
    }
}

// The place of a field: its offset and its name.
type FieldPlace = (u64, Name);

// What stands there: a type, and whether the field is anonymous.
type FieldBody = (TypeRef, bool);

// Reads the field of that name. None where one of its keys is at fault.
fn placed_of(
    alloc: Global,
    name: String,
    mut member: Value,
) -> Result<Option<(FieldPlace, FieldBody)>, AllocError>
    ensures { IfOk result (λ placed. placed ≡ placed_of (string_bytes name) (view member)) }
{
    let Some(offset) = count_at(&member, "offset") else {
        return Ok(None);
    };
    let anonymous = flag_or_false(given(&member, "anonymous"));
    let Some(of) = type_at(alloc, &mut member, "type")? else {
        return Ok(None);
    };
    let Some(anonymous) = anonymous else {
        return Ok(None);
    };
    let name = Name::from(name.into_bytes());
    Ok(Some(((offset, name), (of, anonymous))))
}

// The fields that the members of an object are, by their places. None where one is at fault.
fn placed_in(
    alloc: Global,
    members: Map<String, Value>,
) -> Result<Option<BTreeMap<FieldPlace, FieldBody>>, AllocError>
    ensures { IfOk result (λ found. option_map (λ m. m.entries) found ≡ fields_onto [] (members_view members.entries)) }
{
    let mut found = BTreeMap::new(alloc);
    for (name, member) in members {
        let Some((place, body)) = placed_of(alloc, name, member)? else {
            return Ok(None);
        };
        found.insert(place, body)?;
    }
    Ok(Some(found))
}

// Fields from what stands at their places.
fn fields_from(alloc: Global, found: BTreeMap<FieldPlace, FieldBody>) -> Result<Fields, AllocError>
    ensures { IfOk result (λ fields. fields ≡ map field_at found.entries) }
{
    let mut fields = Fields {
        items: Vec::with_capacity(alloc, found.len())?,
    };
    for ((offset, name), (of, anonymous)) in found {
        fields.add(Field {
            name,
            offset,
            of,
            anonymous,
        })?;
    }
    Ok(fields)
}

// The fields of an object of fields.
fn fields_in(alloc: Global, members: Map<String, Value>) -> Result<Option<Fields>, AllocError>
    ensures { IfOk result (λ fields. fields ≡ fields_in (members_view members.entries)) }
{
    match placed_in(alloc, members)? {
        Some(found) => Ok(Some(fields_from(alloc, found)?)),
        None => Ok(None),
    }
}

// The fields of a user type; the empty list where the key is missing or null.
fn fields_of(alloc: Global, value: Option<Value>) -> Result<Option<Fields>, AllocError>
    ensures { IfOk result (λ fields. fields ≡ fields_of (option_map view value)) }
{
    let Some(value) = value else {
        return Ok(Some(Fields::new(alloc)));
    };
    match value {
        Value::Object(members) => fields_in(alloc, members),
        _ => Ok(None),
    }
}

// Reads a user type, or gives its first key at fault.
fn user_of(alloc: Global, mut entry: Value) -> Result<Result<UserType, Key>, AllocError>
    ensures { IfOk result (λ read. read ≡ user_of (view entry)) }
{
    let Some(size) = count_at(&entry, "size") else {
        return Ok(Err(Key::Size));
    };
    let Some(kind) = text_at(&entry, "kind").and_then(user_kind_of) else {
        return Ok(Err(Key::Kind));
    };
    let Some(fields) = fields_of(alloc, taken_given(&mut entry, "fields"))? else {
        return Ok(Err(Key::Fields));
    };
    Ok(Ok(UserType { size, kind, fields }))
}

impl SectionEntry for UserType {
    ghost reads = { λ name. user_of };

    fn read(
        alloc: Global,
        _name: &[u8],
        entry: Value,
    ) -> Result<Result<UserType, Key>, AllocError> {
        user_of(alloc, entry)
    }
}
