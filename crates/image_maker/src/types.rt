//! The types of a symbol file.
ghost use Rattle.std.specs.Prelude.{◌≡◌, [], map, IfOk};
ghost use Rattle.serde_json.specs.View.{view};
ghost use Rattle.image_maker.specs.Json.{object_of, named, pointer, array_of};
ghost use Rattle.image_maker.specs.Seen.{base_seen, field_seen};
ghost use Rattle.image_maker.specs.Structures.{field};
ghost use Rattle.image_maker.specs.Types.{base_types, base_value, base_member, base_types_value, descriptor, field_value, field_member, structure_value, structure_member, user_types_value};

use crate::field::{FieldRow, fields_of};
use crate::structure::{FieldType, Structure, structure_name, structure_size, structures};
use serde_json::{Map, Value, json, put};
use std::alloc::{AllocError, Global};

// A base type, which is little-endian.
#[derive(Clone, Copy, Debug)]
pub(crate) struct BaseRow {
    pub(crate) name: &'static str,
    pub(crate) size: u32,
    pub(crate) signed: bool,
    pub(crate) kind: &'static str,
}

fn base_types() -> &'static [BaseRow]
    ensures { map base_seen result.now ≡ base_types }
{
    &[
        BaseRow {
            name: "int",
            size: 4,
            signed: true,
            kind: "int",
        },
        BaseRow {
            name: "unsigned int",
            size: 4,
            signed: false,
            kind: "int",
        },
        BaseRow {
            name: "long unsigned int",
            size: 8,
            signed: false,
            kind: "int",
        },
        BaseRow {
            name: "char",
            size: 1,
            signed: true,
            kind: "char",
        },
        BaseRow {
            name: "void",
            size: 0,
            signed: false,
            kind: "void",
        },
    ]
}

fn base_value(alloc: Global, of: BaseRow) -> Result<Value, AllocError>
    ensures { IfOk result (λ value. view value ≡ base_value (base_seen of)) }
{
    json!(in alloc; {"size": of.size, "signed": of.signed, "kind": of.kind, "endian": "little"})
}

// The descriptor of a type that has a name.
fn named(alloc: Global, kind: &str, name: &str) -> Result<Value, AllocError>
    ensures { IfOk result (λ value. view value ≡ named kind.now name.now) }
{
    json!(in alloc; {"kind": kind, "name": name})
}

// The descriptor of a pointer to `void`.
pub(crate) fn pointer(alloc: Global) -> Result<Value, AllocError>
    ensures { IfOk result (λ value. view value ≡ pointer) }
{
    let subtype = named(alloc, "base", "void")?;
    json!(in alloc; {"kind": "pointer", "subtype": subtype})
}

// The descriptor of so many elements of a type.
pub(crate) fn array_of(alloc: Global, count: u32, element: Value) -> Result<Value, AllocError>
    ensures { IfOk result (λ value. view value ≡ array_of count (view element)) }
{
    json!(in alloc; {"kind": "array", "count": count, "subtype": element})
}

fn descriptor(alloc: Global, of: FieldType) -> Result<Value, AllocError>
    ensures { IfOk result (λ value. view value ≡ descriptor of) }
{
    match of {
        FieldType::Int => named(alloc, "base", "int"),
        FieldType::UnsignedInt => named(alloc, "base", "unsigned int"),
        FieldType::UnsignedLong => named(alloc, "base", "long unsigned int"),
        FieldType::Pointer => pointer(alloc),
        FieldType::Chars(count) => array_of(alloc, count, named(alloc, "base", "char")?),
        FieldType::Struct(structure) => named(alloc, "struct", structure_name(structure)),
    }
}

fn field_value(alloc: Global, of: FieldType, offset: u32) -> Result<Value, AllocError>
    ensures { IfOk result (λ value. view value ≡ field_value (field [] of offset)) }
{
    let of = descriptor(alloc, of)?;
    json!(in alloc; {"offset": offset, "type": of})
}

// The object of fields.
fn fields_object(alloc: Global, fields: &[FieldRow]) -> Result<Value, AllocError>
    ensures { IfOk result (λ value. view value ≡ object_of (map field_member (map field_seen fields.now))) }
{
    let mut members = Map::new(alloc);
    for field in fields {
        let value = field_value(alloc, field.1, field.2)?;
        put(&mut members, alloc, field.0, value)?;
    }
    Ok(Value::Object(members))
}

fn structure_value(alloc: Global, structure: Structure) -> Result<Value, AllocError>
    ensures { IfOk result (λ value. view value ≡ structure_value structure) }
{
    let fields = fields_object(alloc, fields_of(structure))?;
    json!(in alloc; {"size": structure_size(structure), "kind": "struct", "fields": fields})
}

// The object of base types.
fn base_object(alloc: Global, rows: &[BaseRow]) -> Result<Value, AllocError>
    ensures { IfOk result (λ value. view value ≡ object_of (map base_member (map base_seen rows.now))) }
{
    let mut members = Map::new(alloc);
    for row in rows {
        let value = base_value(alloc, *row)?;
        put(&mut members, alloc, row.name, value)?;
    }
    Ok(Value::Object(members))
}

// The object of structs.
fn structure_object(alloc: Global, structures: &[Structure]) -> Result<Value, AllocError>
    ensures { IfOk result (λ value. view value ≡ object_of (map structure_member structures.now)) }
{
    let mut members = Map::new(alloc);
    for structure in structures {
        let value = structure_value(alloc, *structure)?;
        put(&mut members, alloc, structure_name(*structure), value)?;
    }
    Ok(Value::Object(members))
}

// The section of base types.
#[tactic(auto, unfolding(crate::specs::Types::base_types_value))]
pub(crate) fn base_types_value(alloc: Global) -> Result<Value, AllocError>
    ensures { IfOk result (λ value. view value ≡ base_types_value) }
{
    base_object(alloc, base_types())
}

// The section of user types, which are structs.
#[tactic(auto, unfolding(crate::specs::Types::user_types_value))]
pub(crate) fn user_types_value(alloc: Global) -> Result<Value, AllocError>
    ensures { IfOk result (λ value. view value ≡ user_types_value) }
{
    structure_object(alloc, structures())
}
