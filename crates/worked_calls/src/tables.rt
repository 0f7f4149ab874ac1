//! Small symbol files.
use anyhow::{Context, Result};
use isf_reader::Table;
use std::alloc::Global;

/// Symbols, of which two share an address and one is at the last address.
pub(crate) const SYMBOLS: &str = r#"{"symbols":{
    "sys_write":{"address":18446744071562117312},
    "modules":{"address":18446744071562088448},
    "sys_read":{"address":18446744071562117120},
    "__x64_sys_read":{"address":18446744071562117120},
    "last":{"address":18446744073709551615}}}"#;

/// An anonymous union within a struct, an enum and a bit field.
pub(crate) const PROBE: &str = r#"{"base_types":{
    "be16":{"size":2,"signed":false,"kind":"int","endian":"big"},
    "u8":{"size":1,"signed":false,"kind":"int","endian":"little"},
    "int":{"size":4,"signed":true,"kind":"int","endian":"little"}},
"enums":{"color":{"size":1,"base":"u8","constants":{"RED":42,"CRIMSON":42}}},
"user_types":{
    "inner":{"size":4,"kind":"union","fields":{
        "n":{"offset":0,"type":{"kind":"base","name":"int"}},
        "c":{"offset":0,"type":{"kind":"enum","name":"color"}}}},
    "probe":{"size":8,"kind":"struct","fields":{
        "a":{"offset":0,"type":{"kind":"base","name":"be16"}},
        "f":{"offset":2,"type":{"kind":"bitfield","bit_position":4,"bit_length":3,
            "type":{"kind":"base","name":"u8"}}},
        "unnamed_field_0":{"offset":4,"type":{"kind":"union","name":"inner"},"anonymous":true}}}}}"#;

/// Each kind of type, and two anonymous fields that share a name.
pub(crate) const KINDS: &str = r#"{"base_types":{
    "pointer":{"size":4,"signed":false,"kind":"int","endian":"little"},
    "char":{"size":1,"signed":true,"kind":"char","endian":"little"}},
"user_types":{
    "first":{"size":8,"kind":"class","fields":{
        "x":{"offset":1,"type":{"kind":"base","name":"char"}},
        "own":{"offset":2,"type":{"kind":"base","name":"char"}}}},
    "second":{"size":8,"kind":"struct","fields":{
        "x":{"offset":0,"type":{"kind":"base","name":"char"}},
        "y":{"offset":3,"type":{"kind":"base","name":"char"}}}},
    "kinds":{"size":64,"kind":"struct","fields":{
        "z_first":{"offset":8,"type":{"kind":"struct","name":"first"},"anonymous":true},
        "a_second":{"offset":16,"type":{"kind":"struct","name":"second"},"anonymous":true},
        "gone":{"offset":20,"type":{"kind":"struct","name":"nothing"},"anonymous":true},
        "own":{"offset":24,"type":{"kind":"pointer","subtype":{"kind":"struct","name":"nothing"}}},
        "call":{"offset":28,"type":{"kind":"function"}},
        "text":{"offset":32,"type":{"kind":"array","count":16,
            "subtype":{"kind":"base","name":"char"}}},
        "most":{"offset":48,"type":{"kind":"array","count":153092023,
            "subtype":{"kind":"array","count":92737,
            "subtype":{"kind":"array","count":649657,
            "subtype":{"kind":"base","name":"char"}}}}},
        "more":{"offset":48,"type":{"kind":"array","count":2147483648,
            "subtype":{"kind":"array","count":2147483648,
            "subtype":{"kind":"array","count":2,
            "subtype":{"kind":"base","name":"char"}}}}}}}}}"#;

/// Arrays whose elements have no size, nearly 2^63 bytes and 2^63 bytes.
pub(crate) const ARRAYS: &str = r#"{"base_types":{
    "char":{"size":1,"signed":true,"kind":"char","endian":"little"}},
"user_types":{
    "arrays":{"size":64,"kind":"struct","fields":{
        "gone":{"offset":0,"type":{"kind":"array","count":2,
            "subtype":{"kind":"struct","name":"nothing"}}},
        "great":{"offset":0,"type":{"kind":"array","count":4,
            "subtype":{"kind":"array","count":153092023,
            "subtype":{"kind":"array","count":92737,
            "subtype":{"kind":"array","count":649657,
            "subtype":{"kind":"base","name":"char"}}}}}},
        "over":{"offset":0,"type":{"kind":"array","count":1,
            "subtype":{"kind":"array","count":2147483648,
            "subtype":{"kind":"array","count":2147483648,
            "subtype":{"kind":"array","count":2,
            "subtype":{"kind":"base","name":"char"}}}}}}}}}}"#;

/// The table that a symbol file is.
pub(crate) fn table_of(alloc: Global, text: &str) -> Result<Table> {
    Table::read(alloc, text.as_bytes())
        .ok()
        .context("a symbol file is refused")
}
