//! Tentative definitions (C99 6.9.2, 2).

use lk_found::At;
use lk_types::TypeId;

/// An object of which is asked at the end of the source whether its type is complete.
#[derive(Clone, Copy)]
pub(crate) struct Pending {
    /// The node of its name.
    pub(crate) at: At,
    /// Its type.
    pub(crate) ty: TypeId,
}
