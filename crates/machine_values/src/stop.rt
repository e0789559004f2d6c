// Why a part of an item isn't done.
use machine_model::Halt;
use py_base::OutOfMemory;

/// Why a part of an item isn't done: as the meaning of a run says, or for want of memory.
#[derive(Clone, Copy, Debug, PartialEq, Eq)]
pub enum Stop {
    Halt(Halt),
    OutOfMemory,
}

impl From<OutOfMemory> for Stop {
    ghost use Rattle.std.specs.Prelude.{◌≡◌};
    ghost use Rattle.machine_values.specs.declared.stop.Stop.{Stop as Reason};
    ghost use Rattle.machine_values.specs.declared.stop.Stop.TheVariants as reason;

    ghost from_gives = { λ _ e. e ≡ reason.OutOfMemory };

    fn from(_: OutOfMemory) -> Stop {
        Stop::OutOfMemory
    }
}
