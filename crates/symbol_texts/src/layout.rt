//! How a type is laid out.
ghost use Rattle.std.specs.Prelude.{◌≡◌, ◌++◌, OnOk, IfOk};
ghost use Rattle.std.specs.List.{flat_map};
ghost use Rattle.symbol_texts.specs.Layout.{field_row, user_word, user_text, constant_row, enum_text, base_word, sign_word, order_word, base_text, layout_text};

use cell_text::{append_number, append_text, append_type};
use isf_reader::{BaseKind, BaseType, Constant, EnumType, Field, Table, UserKind, UserType};
use std::alloc::{AllocError, Global};

#[tactic(auto, unfolding(crate::specs::Layout::field_row))]
fn append_field(text: &mut Vec<u8>, field: &Field) -> Result<(), AllocError>
    ensures { OnOk result (text.new.items ≡ text.old.items ++ field_row field.now) }
{
    append_number(text, field.offset)?;
    text.push(b'\t')?;
    append_text(text, field.name.items())?;
    text.push(b'\t')?;
    append_type(text, &field.of)?;
    text.push(b'\n')?;
    Ok(())
}

fn append_fields(text: &mut Vec<u8>, fields: &[Field]) -> Result<(), AllocError>
    ensures { OnOk result (text.new.items ≡ text.old.items ++ flat_map field_row fields.now) }
{
    for field in fields {
        append_field(text, field)?;
    }
    Ok(())
}

fn user_word(kind: UserKind) -> &'static [u8]
    ensures { result.now ≡ user_word kind }
{
    match kind {
        UserKind::Struct => b"struct ",
        UserKind::Union => b"union ",
        UserKind::Class => b"class ",
    }
}

#[tactic(auto, unfolding(crate::specs::Layout::user_text))]
fn user_text(alloc: Global, name: &[u8], user: &UserType) -> Result<Vec<u8>, AllocError>
    ensures { IfOk result (λ text. text.items ≡ user_text name.now user.now) }
{
    let mut text = Vec::new(alloc);
    text.extend_from_slice(user_word(user.kind))?;
    append_text(&mut text, name)?;
    text.extend_from_slice(b" size ")?;
    append_number(&mut text, user.size)?;
    text.push(b'\n')?;
    append_fields(&mut text, user.fields.items())?;
    Ok(text)
}

#[tactic(auto, unfolding(crate::specs::Layout::constant_row))]
fn append_constant(text: &mut Vec<u8>, constant: &Constant) -> Result<(), AllocError>
    ensures { OnOk result (text.new.items ≡ text.old.items ++ constant_row constant.now) }
{
    append_number(text, constant.value)?;
    text.push(b'\t')?;
    append_text(text, constant.name.items())?;
    text.push(b'\n')?;
    Ok(())
}

fn append_constants(text: &mut Vec<u8>, constants: &[Constant]) -> Result<(), AllocError>
    ensures { OnOk result (text.new.items ≡ text.old.items ++ flat_map constant_row constants.now) }
{
    for constant in constants {
        append_constant(text, constant)?;
    }
    Ok(())
}

#[tactic(auto, unfolding(crate::specs::Layout::enum_text))]
fn enum_text(alloc: Global, name: &[u8], enumeration: &EnumType) -> Result<Vec<u8>, AllocError>
    ensures { IfOk result (λ text. text.items ≡ enum_text name.now enumeration.now) }
{
    let mut text = Vec::new(alloc);
    text.extend_from_slice(b"enum ")?;
    append_text(&mut text, name)?;
    text.extend_from_slice(b" size ")?;
    append_number(&mut text, enumeration.size)?;
    text.extend_from_slice(b" base ")?;
    append_text(&mut text, enumeration.base.items())?;
    text.push(b'\n')?;
    append_constants(&mut text, enumeration.constants.items())?;
    Ok(text)
}

fn base_word(kind: BaseKind) -> &'static [u8]
    ensures { result.now ≡ base_word kind }
{
    match kind {
        BaseKind::Int => b" int",
        BaseKind::Char => b" char",
        BaseKind::Bool => b" bool",
        BaseKind::Float => b" float",
        BaseKind::Void => b" void",
    }
}

fn sign_word(signed: bool) -> &'static [u8]
    ensures { result.now ≡ sign_word signed }
{
    if signed { b" signed" } else { b" unsigned" }
}

fn order_word(big: bool) -> &'static [u8]
    ensures { result.now ≡ order_word big }
{
    if big { b" big\n" } else { b" little\n" }
}

#[tactic(auto, unfolding(crate::specs::Layout::base_text))]
fn base_text(alloc: Global, name: &[u8], base: &BaseType) -> Result<Vec<u8>, AllocError>
    ensures { IfOk result (λ text. text.items ≡ base_text name.now base.now) }
{
    let mut text = Vec::new(alloc);
    text.extend_from_slice(b"base ")?;
    append_text(&mut text, name)?;
    text.extend_from_slice(b" size ")?;
    append_number(&mut text, base.size)?;
    text.extend_from_slice(base_word(base.kind))?;
    text.extend_from_slice(sign_word(base.signed))?;
    text.extend_from_slice(order_word(base.big))?;
    Ok(text)
}

/// Returns the layout of the user type of a name, else of the enum, else of the base type, and `error: no type` where a
/// table has none of them. A user type has its kind, name and size, and a row for each field: the offset, the name and
/// the type; an enum its name, size and base type, and a row for each constant: the value and the name; a base type its
/// name, size, kind, sign and byte order. Sizes and offsets are bytes, numbers are decimal, rows are in the table's
/// order, and each line ends with a newline. The entries are those of the ISF schema; docs/texts.md, "layout NAME", has
/// the form. The only error is out of memory.
pub fn layout_text(alloc: Global, table: &Table, name: &[u8]) -> Result<Vec<u8>, AllocError>
    ensures { IfOk result (λ text. text.items ≡ layout_text table.now name.now) }
{
    if let Some(user) = table.user(name) {
        return user_text(alloc, name, user);
    }
    if let Some(enumeration) = table.enumeration(name) {
        return enum_text(alloc, name, enumeration);
    }
    match table.base(name) {
        Some(base) => base_text(alloc, name, base),
        None => Vec::from_slice(alloc, b"error: no type\n"),
    }
}
