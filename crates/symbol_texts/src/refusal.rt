//! The line that says why a symbol file is refused.
ghost use Rattle.std.specs.Prelude.{◌≡◌, ◌++◌, IfOk, OnOk};
ghost use Rattle.symbol_texts.specs.Refusal.{section_word, key_word, name_word, refusal_words, symbols_refusal_text};

use cell_text::append_text;
use isf_reader::{IsfRefusal, Key, Section};
use std::alloc::{AllocError, Global};

fn section_word(section: Section) -> &'static [u8]
    ensures { result.now ≡ section_word section }
{
    match section {
        Section::File => b"file",
        Section::BaseTypes => b"base_types",
        Section::Enums => b"enums",
        Section::UserTypes => b"user_types",
        Section::Symbols => b"symbols",
    }
}

fn key_word(key: Key) -> &'static [u8]
    ensures { result.now ≡ key_word key }
{
    match key {
        Key::Whole => b"whole",
        Key::Size => b"size",
        Key::Signed => b"signed",
        Key::Kind => b"kind",
        Key::Endian => b"endian",
        Key::Base => b"base",
        Key::Constants => b"constants",
        Key::Fields => b"fields",
        Key::Address => b"address",
        Key::Of => b"type",
        Key::ConstantData => b"constant_data",
    }
}

// A name, and a dash for an empty one.
fn append_name(text: &mut Vec<u8>, name: &[u8]) -> Result<(), AllocError>
    ensures { OnOk result (text.new.items ≡ text.old.items ++ name_word name.now) }
{
    match name {
        [] => Ok(text.push(b'-')?),
        name => append_text(text, name),
    }
}

// The words behind the head of the line.
fn append_words(text: &mut Vec<u8>, refusal: &IsfRefusal) -> Result<(), AllocError>
    ensures { OnOk result (text.new.items ≡ text.old.items ++ refusal_words refusal.now) }
{
    match refusal {
        IsfRefusal::TooLarge { .. } => {
            text.extend_from_slice(b"more than 134217728 bytes")?;
        }
        IsfRefusal::NotJson => text.extend_from_slice(b"not json")?,
        IsfRefusal::BadEntry { section, name, key } => {
            text.extend_from_slice(section_word(*section))?;
            text.push(b' ')?;
            append_name(text, name.items())?;
            text.push(b' ')?;
            text.extend_from_slice(key_word(*key))?;
        }
        IsfRefusal::AnonDepth { name } => {
            text.extend_from_slice(b"anonymous depth ")?;
            append_name(text, name.items())?;
        }
        IsfRefusal::Memory => {}
    }
    Ok(())
}

/// Returns the line that says why a symbol file is refused: `symbols refused: `, the words, and a newline. The words are
/// `more than 134217728 bytes`, `not json`, the section, the name and the key of the first entry at fault, or `anonymous
/// depth` and the name of a user type; a name is a text cell, and `-` where it is empty. IsfTable and keys are those of
/// the ISF schema, and `file` and `whole`; docs/texts.md has each line. `IsfRefusal::Memory` says nothing of the file, and
/// has no words. The only error is out of memory.
#[tactic(auto, unfolding(crate::specs::Refusal::symbols_refusal_text))]
pub fn symbols_refusal_text(alloc: Global, refusal: &IsfRefusal) -> Result<Vec<u8>, AllocError>
    ensures { IfOk result (λ line. line.items ≡ symbols_refusal_text refusal.now) }
{
    let mut line = Vec::new(alloc);
    line.extend_from_slice(b"symbols refused: ")?;
    append_words(&mut line, refusal)?;
    line.push(b'\n')?;
    Ok(line)
}
