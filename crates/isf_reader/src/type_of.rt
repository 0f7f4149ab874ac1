//! Reading a descriptor of a type.
ghost use Rattle.std.specs.Prelude.{◌≡◌, option_map, option_and_then, IfOk, codes};
ghost use Rattle.serde_json.specs.View.{view};
ghost use Rattle.isf_reader.specs.TypeOf.{shape_of, shape_at, type_of, type_at, array_of, bits_of};

use crate::TypeRef;
use crate::json::{count_at, taken, taken_name, text_at};
use serde_json::Value;
use sqlite_items::Boxed;
use std::alloc::{AllocError, Global};

// The kinds of descriptors.
#[derive(Clone, Copy, Debug, PartialEq, Eq)]
enum Shape {
    Base,
    Pointer,
    Array,
    Struct,
    Union,
    Class,
    Enum,
    Bits,
    Function,
}

#[tactic(auto, unfolding(crate::specs::TypeOf::shape_of))]
fn shape_of(text: &str) -> Option<Shape>
    ensures { result ≡ shape_of text.now }
{
    if text == "base" {
        Some(Shape::Base)
    } else if text == "pointer" {
        Some(Shape::Pointer)
    } else if text == "array" {
        Some(Shape::Array)
    } else if text == "struct" {
        Some(Shape::Struct)
    } else if text == "union" {
        Some(Shape::Union)
    } else if text == "class" {
        Some(Shape::Class)
    } else if text == "enum" {
        Some(Shape::Enum)
    } else if text == "bitfield" {
        Some(Shape::Bits)
    } else if text == "function" {
        Some(Shape::Function)
    } else {
        None
    }
}

// The kind of a descriptor.
fn shape_at(value: &Value) -> Option<Shape>
    ensures { result ≡ shape_at (view value.now) }
{
    shape_of(text_at(value, "kind")?)
}

// Reads a descriptor. None where it describes no type.
#[cycle(type_of)]
pub(crate) fn type_of(alloc: Global, mut value: Value) -> Result<Option<TypeRef>, AllocError>
    ensures { IfOk result (λ of. of ≡ type_of (view value)) }
{
    let Some(shape) = shape_at(&value) else {
        return Ok(None);
    };
    match shape {
        Shape::Base => Ok(taken_name(&mut value, "name").map(TypeRef::Base)),
        Shape::Struct => Ok(taken_name(&mut value, "name").map(TypeRef::Struct)),
        Shape::Union => Ok(taken_name(&mut value, "name").map(TypeRef::Union)),
        Shape::Class => Ok(taken_name(&mut value, "name").map(TypeRef::Class)),
        Shape::Enum => Ok(taken_name(&mut value, "name").map(TypeRef::Enum)),
        Shape::Pointer => {
            let of = type_at(alloc, &mut value, "subtype")?;
            Ok(boxed(alloc, of)?.map(TypeRef::Pointer))
        }
        Shape::Array => {
            let count = count_at(&value, "count");
            let of = type_at(alloc, &mut value, "subtype")?;
            Ok(array_of(count, boxed(alloc, of)?))
        }
        Shape::Bits => {
            let position = count_at(&value, "bit_position");
            let length = count_at(&value, "bit_length");
            let of = type_at(alloc, &mut value, "type")?;
            Ok(bits_of(position, length, boxed(alloc, of)?))
        }
        Shape::Function => Ok(Some(TypeRef::Function)),
    }
}

// The type at a key.
#[cycle(type_of)]
pub(crate) fn type_at(
    alloc: Global,
    value: &mut Value,
    key: &str,
) -> Result<Option<TypeRef>, AllocError>
    ensures { IfOk result (λ of. of ≡ type_at key.now (view value.old)) }
{
    match taken(value, key) {
        Some(inner) => type_of(alloc, inner),
        None => Ok(None),
    }
}

// The type in a box.
fn boxed(alloc: Global, of: Option<TypeRef>) -> Result<Option<Boxed<TypeRef>>, AllocError>
    ensures { IfOk result (λ boxed. boxed ≡ of) }
{
    match of {
        Some(of) => Ok(Some(Boxed::new(alloc, of)?)),
        None => Ok(None),
    }
}

fn array_of(count: Option<u64>, of: Option<Boxed<TypeRef>>) -> Option<TypeRef>
    ensures { result ≡ array_of count of }
{
    Some(TypeRef::Array {
        count: count?,
        of: of?,
    })
}

fn bits_of(
    position: Option<u64>,
    length: Option<u64>,
    of: Option<Boxed<TypeRef>>,
) -> Option<TypeRef>
    ensures { result ≡ bits_of position length of }
{
    let position = position?;
    let length = length?;
    if position > 128 || length > 128 - position {
        return None;
    }
    Some(TypeRef::Bits {
        position: position as u32,
        length: length as u32,
        of: of?,
    })
}
