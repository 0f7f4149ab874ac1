//! Symbols.
ghost use Rattle.std.specs.Prelude.{◌≡◌, option_map, IfOk};
ghost use Rattle.serde_json.specs.View.{view};
ghost use Rattle.isf_reader.specs.Symbols.{optional_type, decoded, optional_bytes, symbol_of};

use crate::json::{given, natural_at, taken_given};
use crate::section::SectionEntry;
use crate::type_of::type_of;
use crate::{Key, TypeRef};
use base64::DecodeAllocError;
use base64::engine::general_purpose::STANDARD;
use layer_base::Bytes;
use serde_json::Value;
use std::alloc::{AllocError, Global};

/// A symbol: its address, its type where one is given, and its data where they are given.
#[derive(Debug, Drop)]
pub struct Symbol {
    pub address: u64,
    pub of: Option<TypeRef>,
    pub constant: Option<Bytes>,
}

// The type of a symbol; no type where the key is missing or null.
fn optional_type(alloc: Global, value: Option<Value>) -> Result<Option<Option<TypeRef>>, AllocError>
    ensures { IfOk result (λ of. of ≡ optional_type (option_map view value)) }
{
    match value {
        Some(value) => Ok(type_of(alloc, value)?.map(Some)),
        None => Ok(Some(None)),
    }
}

// What a text is in base64.
#[tactic(auto, unfolding(crate::specs::Symbols::decoded))]
fn decoded(alloc: Global, text: &str) -> Result<Option<Bytes>, AllocError>
    ensures { IfOk result (λ bytes. bytes ≡ decoded text.now) }
{
    match STANDARD.decode(alloc, text.as_bytes()) {
        Ok(bytes) => Ok(Some(Bytes::from(bytes))),
        Err(DecodeAllocError::DecodeError(_)) => Ok(None),
        Err(DecodeAllocError::OutOfMemory) => Err(AllocError),
    }
}

// The data of a symbol; no data where the key is missing or null.
fn optional_bytes(alloc: Global, value: Option<&Value>) -> Result<Option<Option<Bytes>>, AllocError>
    ensures { IfOk result (λ bytes. bytes ≡ optional_bytes (option_map (λ v. view v.now) value.entry)) }
{
    let Some(value) = value else {
        return Ok(Some(None));
    };
    match value.as_str() {
        Some(text) => Ok(decoded(alloc, text)?.map(Some)),
        None => Ok(None),
    }
}

// Reads a symbol, or gives its first key at fault.
fn symbol_of(alloc: Global, mut entry: Value) -> Result<Result<Symbol, Key>, AllocError>
    ensures { IfOk result (λ read. read ≡ symbol_of (view entry)) }
{
    let Some(address) = natural_at(&entry, "address") else {
        return Ok(Err(Key::Address));
    };
    let constant = optional_bytes(alloc, given(&entry, "constant_data"))?;
    let Some(of) = optional_type(alloc, taken_given(&mut entry, "type"))? else {
        return Ok(Err(Key::Of));
    };
    let Some(constant) = constant else {
        return Ok(Err(Key::ConstantData));
    };
    Ok(Ok(Symbol {
        address,
        of,
        constant,
    }))
}

impl SectionEntry for Symbol {
    ghost reads = { λ name. symbol_of };

    fn read(alloc: Global, _name: &[u8], entry: Value) -> Result<Result<Symbol, Key>, AllocError> {
        symbol_of(alloc, entry)
    }
}
