//! Paths of files.

use crate::Stop;
use layer_base::Name;

/// The path of a file as far as it was found, and why the walk along it ended.
#[derive(Debug, Drop)]
pub struct PathText {
    pub text: Name,
    pub stop: Stop,
}
