//! What a row says of its parent.

use layer_base::Number;

/// The PID of a row and the PID of its parent. Numbers are compared as whole numbers, however they were read.
#[derive(Clone, Copy, Debug, PartialEq, Eq)]
pub struct Key {
    pub pid: Option<Number>,
    pub ppid: Option<Number>,
}
