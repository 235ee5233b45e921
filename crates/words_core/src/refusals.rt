//! Converts each refusal of the private machine to the [`Refusal`] of a reply, so that `?` works in functions whose error is a
//! [`Refusal`].

ghost use Rattle.std.specs.Prelude.{◌≡◌};
ghost use Rattle.words_core.specs.Refusals.{alloc_refusal, read_refusal, cache_refusal, destroy_refusal, take_refusal, give_refusal, take_back_refusal};

use crate::reply::Refusal;
use model_core::refusals::{
    AllocRefusal, CacheRefusal, DestroyRefusal, GiveRefusal, ReadRefusal, TakeBackRefusal,
    TakeRefusal,
};

impl From<AllocRefusal> for Refusal {
    ghost from_gives = { λ refusal told. told ≡ alloc_refusal refusal };

    #[inline(always)]
    fn from(refusal: AllocRefusal) -> Refusal {
        match refusal {
            AllocRefusal::BadOrder => Refusal::BadOrder,
            AllocRefusal::NoFrames => Refusal::NoFrames,
        }
    }
}

impl From<ReadRefusal> for Refusal {
    ghost from_gives = { λ refusal told. told ≡ read_refusal refusal };

    #[inline(always)]
    fn from(refusal: ReadRefusal) -> Refusal {
        match refusal {
            ReadRefusal::BadLength => Refusal::BadLength,
            ReadRefusal::OutOfReach => Refusal::OutOfReach,
        }
    }
}

impl From<CacheRefusal> for Refusal {
    ghost from_gives = { λ refusal told. told ≡ cache_refusal refusal };

    fn from(refusal: CacheRefusal) -> Refusal {
        match refusal {
            CacheRefusal::BadSize => Refusal::BadSize,
            CacheRefusal::BadAlign => Refusal::BadAlign,
            CacheRefusal::NoCacheSlot => Refusal::NoCacheSlot,
        }
    }
}

impl From<DestroyRefusal> for Refusal {
    ghost from_gives = { λ refusal told. told ≡ destroy_refusal refusal };

    fn from(refusal: DestroyRefusal) -> Refusal {
        match refusal {
            DestroyRefusal::NoCache => Refusal::NoCache,
            DestroyRefusal::CacheInUse => Refusal::CacheInUse,
        }
    }
}

impl From<TakeRefusal> for Refusal {
    ghost from_gives = { λ refusal told. told ≡ take_refusal refusal };

    #[inline(always)]
    fn from(refusal: TakeRefusal) -> Refusal {
        match refusal {
            TakeRefusal::NoCache => Refusal::NoCache,
            TakeRefusal::NoFrames => Refusal::NoFrames,
        }
    }
}

impl From<GiveRefusal> for Refusal {
    ghost from_gives = { λ refusal told. told ≡ give_refusal refusal };

    #[inline(always)]
    fn from(refusal: GiveRefusal) -> Refusal {
        match refusal {
            GiveRefusal::NoCache => Refusal::NoCache,
            GiveRefusal::NotAnObject => Refusal::NotAnObject,
        }
    }
}

impl From<TakeBackRefusal> for Refusal {
    ghost from_gives = { λ refusal told. told ≡ take_back_refusal refusal };

    fn from(refusal: TakeBackRefusal) -> Refusal {
        match refusal {
            TakeBackRefusal::NoSlot => Refusal::NoSlot,
            TakeBackRefusal::SlotBusy => Refusal::SlotBusy,
        }
    }
}
