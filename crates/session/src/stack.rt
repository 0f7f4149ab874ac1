//! The formats of containers, tried on an image in their order.
ghost use Rattle.std.specs.Prelude.{◌≡◌, ◌≤◌, ◌++◌, IsErrOf, IfSome, OnOk, OnErr};
ghost use Rattle.layer_base.specs.Counts.{HasCause};
ghost use Rattle.layer_base.specs.Known.{Writes};
ghost use Rattle.session.specs.Stack.{stack_of, KeepsOrAttaches, TriesAs, format_word, rule_word, refusal_text};

use hex_text::append_address;
use layer_base::{Kind, Layer, Rule, Sink, SinkFault, Why, write_whole};
use std::alloc::{AllocError, Global};

/// A container whose header breaks a rule of its format.
#[derive(Clone, Copy, Debug, PartialEq, Eq)]
pub(crate) struct Refusal {
    pub(crate) format: Kind,
    /// The place of the header.
    pub(crate) at: u64,
    pub(crate) rule: Rule,
}

/// Why an image is not shown.
#[derive(Clone, Copy, Debug, PartialEq, Eq)]
pub(crate) enum StackFault {
    Refused(Refusal),
    Device,
    Memory,
}

/// Attaches the first format that the image is of. An image of none of them stays as it is.
pub(crate) fn attach_formats<Y: Layer>(image: &mut Y, formats: &[Kind]) -> Result<(), StackFault>
    requires { Y.kind image.old ≡ Kind.File }
    ensures stack { IfSome (Y.view image.old) (λ before.
        TriesAs (stack_of formats.now before) (Y.view image.new) (Y.kind image.new) result) }
    ensures layer { KeepsOrAttaches formats.now (Y.view image.old) (Y.kind image.old) (Y.view image.new) (Y.kind image.new) }
    ensures same_view { OnErr result (Y.view image.new ≡ Y.view image.old) }
    ensures same_kind { OnErr result (Y.kind image.new ≡ Y.kind image.old) }
    ensures calls { Y.calls image.new ≡ Y.calls image.old }
    ensures cause { HasCause (Y.faults image.old) (Y.faults image.new) (IsErrOf result StackFault.Device) }
{
    for format in formats {
        match image.attach(*format, 0) {
            Ok(()) => return Ok(()),
            Err(Why::NotThis) => {}
            Err(Why::Bad { at, rule }) => {
                return Err(StackFault::Refused(Refusal {
                    format: *format,
                    at,
                    rule,
                }));
            }
            Err(Why::Device) => return Err(StackFault::Device),
            Err(Why::Memory) => return Err(StackFault::Memory),
            Err(Why::Taken) => unreachable!(),
        }
    }
    Ok(())
}

fn format_word(format: Kind) -> &'static [u8]
    ensures { result.now ≡ format_word format }
{
    match format {
        Kind::File => b"file",
        Kind::Lime => b"lime",
    }
}

fn rule_word(rule: Rule) -> &'static [u8]
    ensures { result.now ≡ rule_word rule }
{
    match rule {
        Rule::Many => b"many",
        Rule::Cut => b"cut",
        Rule::Magic => b"magic",
        Rule::Version => b"version",
        Rule::Order => b"order",
    }
}

fn append_refusal(text: &mut Vec<u8>, refusal: Refusal) -> Result<(), AllocError>
    ensures { OnOk result (text.new.items ≡ text.old.items ++ refusal_text refusal) }
{
    text.extend_from_slice(b"image refused: ")?;
    text.extend_from_slice(format_word(refusal.format))?;
    text.push(b' ')?;
    append_address(text, refusal.at)?;
    text.push(b' ')?;
    text.extend_from_slice(rule_word(refusal.rule))?;
    text.push(b'\n')?;
    Ok(())
}

/// Writes the line that says the refusal.
pub(crate) fn write_refusal<O: Sink>(
    alloc: Global,
    refusal: Refusal,
    out: &mut O,
) -> Result<(), SinkFault>
    ensures text { Writes (O.written out.old) (O.written out.new) result (refusal_text refusal) }
    ensures cause { HasCause (O.faults out.old) (O.faults out.new) (IsErrOf result SinkFault.Failed) }
{
    let mut text = Vec::new(alloc);
    match append_refusal(&mut text, refusal) {
        Ok(()) => write_whole(out, &text),
        Err(_) => Err(SinkFault::Memory),
    }
}
