//! Base types: numbers of a size, and what else isn't made of other types.
ghost use Rattle.std.specs.Prelude.{◌≡◌, IfOk};
ghost use Rattle.serde_json.specs.View.{view};
ghost use Rattle.isf_reader.specs.BaseTypes.{base_kind_of, big_of, size_fits, base_of};

use crate::Key;
use crate::json::{count_at, flag_at, text_at};
use crate::section::SectionEntry;
use serde_json::Value;
use std::alloc::{AllocError, Global};

/// What the bytes of a base type are.
#[derive(Clone, Copy, Debug, PartialEq, Eq)]
pub enum BaseKind {
    Int,
    Char,
    Bool,
    Float,
    Void,
}

/// A base type: its size in bytes, whether it is signed, its kind, and whether its most significant byte comes first.
#[derive(Clone, Copy, Debug, PartialEq, Eq)]
pub struct BaseType {
    pub size: u64,
    pub signed: bool,
    pub kind: BaseKind,
    pub big: bool,
}

#[tactic(auto, unfolding(crate::specs::BaseTypes::base_kind_of))]
fn base_kind_of(text: &str) -> Option<BaseKind>
    ensures { result ≡ base_kind_of text.now }
{
    if text == "int" {
        Some(BaseKind::Int)
    } else if text == "char" {
        Some(BaseKind::Char)
    } else if text == "bool" {
        Some(BaseKind::Bool)
    } else if text == "float" {
        Some(BaseKind::Float)
    } else if text == "void" {
        Some(BaseKind::Void)
    } else {
        None
    }
}

#[tactic(auto, unfolding(crate::specs::BaseTypes::big_of))]
fn big_of(text: &str) -> Option<bool>
    ensures { result ≡ big_of text.now }
{
    if text == "little" {
        Some(false)
    } else if text == "big" {
        Some(true)
    } else {
        None
    }
}

// A pointer has 1 to 8 bytes.
#[tactic(auto, unfolding(crate::specs::BaseTypes::size_fits))]
fn size_fits(name: &[u8], size: u64) -> bool
    ensures { result ≡ size_fits name.now size }
{
    name != b"pointer".as_slice() || (1 <= size && size <= 8)
}

// Reads the base type of that name, or gives its first key at fault.
fn base_of(name: &[u8], entry: &Value) -> Result<BaseType, Key>
    ensures { result ≡ base_of name.now (view entry.now) }
{
    let size = count_at(entry, "size").ok_or(Key::Size)?;
    if !size_fits(name, size) {
        return Err(Key::Size);
    }
    let signed = flag_at(entry, "signed").ok_or(Key::Signed)?;
    let kind = text_at(entry, "kind")
        .and_then(base_kind_of)
        .ok_or(Key::Kind)?;
    let big = text_at(entry, "endian")
        .and_then(big_of)
        .ok_or(Key::Endian)?;
    Ok(BaseType {
        size,
        signed,
        kind,
        big,
    })
}

impl SectionEntry for BaseType {
    ghost reads = { base_of };

    fn read(
        _alloc: Global,
        name: &[u8],
        entry: Value,
    ) -> Result<Result<BaseType, Key>, AllocError> {
        Ok(base_of(name, &entry))
    }
}
