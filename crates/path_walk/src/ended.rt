//! The text of a path that has ended.
ghost use Rattle.std.specs.Prelude.{◌≡◌, ◌++◌, reverse, IfOk, OnOk};
ghost use Rattle.std.specs.List.{join_with_byte};
ghost use Rattle.path_walk.specs.Path.{start_of, slash_if, ended};

use kernel_records::{PathText, Stop};
use layer_base::Name;
use std::alloc::{AllocError, Global};

// What stands in front of the names.
fn start_of(stop: Stop) -> &'static [u8]
    ensures { result.now ≡ start_of stop }
{
    match stop {
        Stop::Head => b"/",
        _ => b"?/",
    }
}

// Appends a name, and a slash where more names follow it.
fn append_name(text: &mut Vec<u8>, name: &[u8], more: bool) -> Result<(), AllocError>
    ensures { OnOk result (text.new.items ≡ text.old.items ++ name.now ++ slash_if more) }
{
    text.extend_from_slice(name)?;
    if more {
        text.push(b'/')?;
    }
    Ok(())
}

// Appends names, the last one first, with a slash between each two.
fn append_names(text: &mut Vec<u8>, names: &[Name]) -> Result<(), AllocError>
    ensures { OnOk result (text.new.items ≡ text.old.items ++ join_with_byte 47 (reverse names.now)) }
{
    let mut left = names.len();
    while left > 0 {
        left -= 1;
        append_name(text, names[left].items(), left > 0)?;
    }
    Ok(())
}

/// The path of these names, of which the last is next to the root.
#[tactic(auto, unfolding(crate::specs::Path::ended))]
pub(crate) fn ended(alloc: Global, names: &[Name], stop: Stop) -> Result<PathText, AllocError>
    ensures { IfOk result (λ path. path ≡ ended (reverse names.now) stop) }
{
    let mut text = Vec::from_slice(alloc, start_of(stop))?;
    append_names(&mut text, names)?;
    Ok(PathText {
        text: Name::from(text),
        stop,
    })
}
