//! What a type that reads itself from bytes names: the structure that is being read, how far reading has come in it, and the types of
//! Rust whose values leaves are.

pub use crate::cursor::Cursor;
pub use crate::failure::{Cause, Failure, FaultAt, Step};
pub use crate::leaf::{Leaf as LeafShape, LeafContent};
pub use crate::rules::RuleParts;
pub use crate::scope::Scope;
pub use crate::values::{BigNumber, DateTime, Interval};
