ghost use Rattle.std.specs.Prelude.{◌≡◌};

use store::fault::StoreFault;

/// The store fault that a transfer met.
#[derive(Clone, Copy)]
pub struct TransferFault {
    pub store: StoreFault,
}

/// A host's fault: the store's fault whole, and beside it the unit and the block's address there.
#[derive(Clone, Copy)]
pub struct HostFault {
    pub fault: TransferFault,
    pub unit: u8,
    pub address: u32,
}

impl From<StoreFault> for TransferFault {
    ghost from_gives = { λ f r. r ≡ record { store = f } };

    fn from(store: StoreFault) -> TransferFault {
        TransferFault { store }
    }
}
