// A field that is written once. The first write stores its value, whatever it is; later writes change nothing. The identification
// registers and the form factor of a bay are such fields. See docs/PROMISES.md, "Device bays".
ghost use Rattle.std.specs.Prelude.{◌≡◌};
ghost use Rattle.access.specs.Status.{status_number};
ghost use Rattle.bays.specs.Once.{after_write, fresh_once, write_status};

use access::Status;

// Not an Option: saved bytes may hold a value that is not marked as written (`once_from`, `once_saved`).
#[derive(Clone, Copy)]
pub struct Once {
    pub value: u16,
    pub written: bool,
}

impl Once {
    pub fn fresh() -> Self
        ensures { result ≡ fresh_once }
    {
        Once {
            value: 0,
            written: false,
        }
    }

    #[tactic(auto, unfolding(crate::specs::Once::after_write))]
    pub fn write(self, value: u16) -> Self
        ensures { result ≡ after_write self value }
    {
        if self.written {
            return self;
        }
        Once {
            value,
            written: true,
        }
    }

    // The status of a write to a register that is read-only after its first write.
    #[tactic(auto, unfolding(crate::specs::Once::write_status))]
    pub fn write_status(self) -> Status
        ensures { status_number result ≡ write_status self }
    {
        if self.written {
            return Status::Blocked;
        }
        Status::Done
    }
}
