//! The crate's result type.

use crate::error::Error;

/// What a call of this crate returns: its value, or an error.
pub type Result<T> = std::result::Result<T, Error>;
