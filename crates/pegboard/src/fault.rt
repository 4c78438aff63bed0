// Why a peg was not put in.
ghost use Rattle.std.specs.Prelude.{◌≡◌};
ghost use Rattle.pegboard.specs.declared.fault.PegFault.TheVariants.{Bench, Memory};

use faults::BenchFault;
use std::alloc::AllocError;

// A rule of the listing refused it, or memory for its token was short.
#[derive(Clone, Copy, Debug, PartialEq, Eq)]
pub enum PegFault {
    Bench(BenchFault),
    Memory,
}

impl From<BenchFault> for PegFault {
    ghost from_gives = { λ e r. r ≡ Bench e };

    fn from(e: BenchFault) -> PegFault {
        PegFault::Bench(e)
    }
}

impl From<AllocError> for PegFault {
    ghost from_gives = { λ _ r. r ≡ Memory };

    fn from(_: AllocError) -> PegFault {
        PegFault::Memory
    }
}
