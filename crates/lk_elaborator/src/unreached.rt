//! Where control never comes.

use lk_base::NoMemory;

/// What is answered where control never comes in a source without a fault.
pub fn nowhere() -> NoMemory {
    NoMemory
}
