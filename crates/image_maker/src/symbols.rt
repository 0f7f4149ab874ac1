//! The symbol file of a made image.
ghost use Rattle.std.specs.Prelude.{◌≡◌, ◌+◌, ◌<◌, ◌∷◌, [], map, IfOk, OnOk, string_bytes, codes};
ghost use Rattle.serde_json.specs.View.{view, members_view};
ghost use Rattle.image_maker.specs.Banner.{banner};
ghost use Rattle.image_maker.specs.Json.{put_all, object_of, whole};
ghost use Rattle.image_maker.specs.Seen.{symbol_seen};
ghost use Rattle.image_maker.specs.Symbols.{address, plain_symbols, plain_member, calls_value, banner_data, banner_value, symbols_value, file_value, made_symbols};

use crate::banner::banner;
use crate::types::{array_of, base_types_value, pointer, user_types_value};
use base64::engine::general_purpose::STANDARD;
use serde_json::{Map, Value, json, put};
use std::alloc::{AllocError, Global};

// Where the kernel stands where nothing shifts it.
const LINK_BASE: u64 = 0xffff_ffff_8000_0000;

// A symbol's name, and its offset from the kernel's link base.
type SymbolRow = (&'static str, u16);

// The symbols that have an address alone.
fn plain_symbols() -> &'static [SymbolRow]
    ensures { map symbol_seen result.now ≡ plain_symbols }
{
    &[
        ("init_top_pgt", 0x1000),
        ("init_task", 0x3000),
        ("init_files", 0x4000),
        ("modules", 0x5000),
        ("__x64_sys_read", 0xc000),
        ("sys_read_alias", 0xc000),
        ("sys_write", 0xc0c0),
        ("pipefs_dname", 0xc100),
    ]
}

fn plain_value(alloc: Global, address: u64) -> Result<Value, AllocError>
    ensures { IfOk result (λ value. view value ≡ object_of ((codes "address", whole address) ∷ [])) }
{
    json!(in alloc; {"address": address})
}

// The table of system calls, an array of three pointers.
#[tactic(auto, unfolding(crate::specs::Symbols::calls_value))]
fn calls_value(alloc: Global) -> Result<Value, AllocError>
    ensures { IfOk result (λ value. view value ≡ calls_value) }
{
    let of = array_of(alloc, 3, pointer(alloc)?)?;
    json!(in alloc; {"address": LINK_BASE + 0x6000, "type": of})
}

// The banner with its newline and a zero byte, in base64.
#[tactic(auto, unfolding(crate::specs::Symbols::banner_data))]
fn banner_data(alloc: Global, number: u64) -> Result<String, AllocError>
    ensures { IfOk result (λ text. string_bytes text ≡ banner_data number) }
{
    let mut bytes = banner(alloc, number)?;
    bytes.push(0)?;
    STANDARD.encode(alloc, &bytes)
}

#[tactic(auto, unfolding(crate::specs::Symbols::banner_value))]
fn banner_value(alloc: Global, number: u64) -> Result<Value, AllocError>
    ensures { IfOk result (λ value. view value ≡ banner_value number) }
{
    let data = Value::String(banner_data(alloc, number)?);
    json!(in alloc; {"address": LINK_BASE + 0x8000, "constant_data": data})
}

// Puts symbols that have an address alone into the section of symbols.
fn put_plain(
    alloc: Global,
    members: &mut Map<String, Value>,
    symbols: &[SymbolRow],
) -> Result<(), AllocError>
    ensures { OnOk result (members_view members.new.entries ≡ put_all (map plain_member (map symbol_seen symbols.now)) (members_view members.old.entries)) }
{
    for symbol in symbols {
        let value = plain_value(alloc, LINK_BASE + u64::from(symbol.1))?;
        put(members, alloc, symbol.0, value)?;
    }
    Ok(())
}

// The section of symbols.
#[tactic(auto, unfolding(crate::specs::Symbols::symbols_value))]
fn symbols_value(alloc: Global, number: u64) -> Result<Value, AllocError>
    ensures { IfOk result (λ value. view value ≡ symbols_value number) }
{
    let mut members = Map::new(alloc);
    put_plain(alloc, &mut members, plain_symbols())?;
    put(&mut members, alloc, "sys_call_table", calls_value(alloc)?)?;
    put(
        &mut members,
        alloc,
        "linux_banner",
        banner_value(alloc, number)?,
    )?;
    Ok(Value::Object(members))
}

#[tactic(auto, unfolding(crate::specs::Symbols::file_value))]
fn file_value(alloc: Global, number: u64) -> Result<Value, AllocError>
    ensures { IfOk result (λ value. view value ≡ file_value number) }
{
    let base_types = base_types_value(alloc)?;
    let user_types = user_types_value(alloc)?;
    let symbols = symbols_value(alloc, number)?;
    json!(in alloc; {"base_types": base_types, "user_types": user_types, "symbols": symbols})
}

// The text of the symbol file.
pub(crate) fn made_symbols(alloc: Global, number: u64) -> Result<Vec<u8>, AllocError>
    ensures { IfOk result (λ text. text.items ≡ made_symbols number) }
{
    let text = file_value(alloc, number)?.to_string(alloc)?;
    Ok(text.into_bytes())
}
