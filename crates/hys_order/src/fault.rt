ghost use Rattle.std.specs.Prelude.{◌≡◌};
ghost use Rattle.hys_order.specs.declared.fault.OrderFault.TheVariants.{Memory};

use hys_base::List;
use hys_prog::NameId;
use std::alloc::{AllocError, AllocFailed};

/// Why auxiliaries have no order: a cycle of them, in which each is mentioned in the definition of
/// the one before it and the first in that of the last, or memory was wanting. A cycle begins with
/// the one that was declared first.
#[derive(Debug, Drop)]
pub enum OrderFault {
    Cycle(List<NameId>),
    Memory,
}

impl From<AllocError> for OrderFault {
    ghost from_gives = { λ _ e. e ≡ Memory };

    fn from(_: AllocError) -> OrderFault {
        OrderFault::Memory
    }
}

impl<T: Drop> From<AllocFailed<T>> for OrderFault {
    ghost from_gives = { λ _ e. e ≡ Memory };

    fn from(_: AllocFailed<T>) -> OrderFault {
        OrderFault::Memory
    }
}
