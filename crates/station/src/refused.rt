// A set-up that was refused.
ghost use Rattle.std.specs.Prelude.{◌≡◌, Ok, Err, IfOk, IfErr};
ghost use Rattle.station.specs.declared.refused.Why.TheVariants.{Listed, Memory};

use fault_at::FaultAt;
use std::alloc::AllocError;
use thiserror::Error;
use watch_list::fault::ListFault;

#[derive(Clone, Copy, PartialEq, Eq, Debug, Error)]
pub enum Why {
    // what is wrong with the watch list, and where
    #[error(transparent)]
    Listed(FaultAt<ListFault>),
    #[error("no memory")]
    Memory,
}

impl From<FaultAt<ListFault>> for Why {
    ghost from_gives = { λ fault why. why ≡ Listed fault };

    fn from(fault: FaultAt<ListFault>) -> Why {
        Why::Listed(fault)
    }
}

impl From<AllocError> for Why {
    ghost from_gives = { λ _ why. why ≡ Memory };

    fn from(_no_memory: AllocError) -> Why {
        Why::Memory
    }
}

// The bank comes back as it was.
#[derive(Drop)]
pub struct SetUpRefused<B> {
    pub bank: B,
    pub why: Why,
}

// A bank beside what was made for it; or, where it could not be made, the bank handed back with the reason.
pub fn with_bank<B, T>(bank: B, made: Result<T, Why>) -> Result<(B, T), SetUpRefused<B>>
    ensures made { IfOk result (λ r. (r.0 ≡ bank) × (made ≡ Ok r.1)) }
    ensures refused { IfErr result (λ refused. (refused.bank ≡ bank) × (made ≡ Err refused.why)) }
{
    match made {
        Ok(made) => Ok((bank, made)),
        Err(why) => Err(SetUpRefused { bank, why }),
    }
}
