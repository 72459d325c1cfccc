//! What becomes of a demand at the head of its queue.
ghost use Rattle.std.specs.Prelude.{◌≡◌};
ghost use Rattle.so_ids.specs.declared.DemandId.{DemandId as Id};
ghost use Rattle.so_disp_adv.specs.declared.heads.HeadClass.{HeadClass as Class};

use so_ids::DemandId;

/// What becomes of a demand that is taken.
#[derive(Clone, Copy, PartialEq, Eq)]
pub enum HeadClass {
    /// A turn begins that runs beside no other of its queue.
    Exclusive,
    /// A turn begins that may run beside other thread-safe ones.
    Safe,
    /// No turn begins.
    Skip,
}

/// Who knows what becomes of each demand.
pub trait Heads {
    ghost class: { Self → Id → Class };

    /// What becomes of the demand if it is taken now.
    fn class(&self, demand: DemandId) -> HeadClass
        ensures { result ≡ class self.now demand };
}
