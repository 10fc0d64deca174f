// Single calls: one access or one event on any device, valid or not, with any numbers.
// `replay` calls them. `state` has the same two calls on saved bytes. See docs/CHIP.md, "Single calls".
ghost use Rattle.std.specs.Prelude.{◌≡◌};
ghost use Rattle.outcome.specs.Refused.{refusal_in, refusal_number};
ghost use Rattle.outcome.specs.Refusal.{refusal};
ghost use Rattle.device.specs.Single.{
  is_access,
  call_refusal,
  access_refusal,
  accessed,
  single_access,
  event_refusal,
  after_event,
  single_event,
};

use crate::owner::Owner;
use crate::{Device, Outputs};
use access::{Access, Answer};
use outcome::{RefusalKind, Refused};

// A single access that was made: the device after it, the block that owned the port, its answer, and the outputs.
#[derive(Clone, Copy)]
pub struct SingleAccess {
    pub device: Device,
    pub owner: Option<Owner>,
    pub answer: Answer,
    pub outputs: Outputs,
}

// A single event that was made.
#[derive(Clone, Copy)]
pub struct SingleEvent {
    pub device: Device,
    pub outputs: Outputs,
}

// False for the accesses that are refused with 4. The value of a read is not checked.
fn is_access(access: Access) -> bool
    ensures { result ≡ is_access access }
{
    width::is_width(access.width)
        && access.port <= 0xFFFF
        && (!access.write || width::fits(access.width, access.value))
}

// Refusal 11 comes before the refusal of the call itself. Two tests and a kind, as in the definition `call_refusal`, which both calls share.
fn call_refusal(valid: bool, allowed: bool, kind: RefusalKind) -> Result<(), Refused>
    ensures { refusal_in result ≡ refusal (call_refusal valid allowed (refusal_number kind)) 0 }
{
    if !valid {
        return Err(Refused {
            kind: RefusalKind::BadState,
            place: 0,
        });
    }
    if !allowed {
        return Err(Refused { kind, place: 0 });
    }
    Ok(())
}

impl Device {
    pub fn access_refusal(self, access: Access) -> Result<(), Refused>
        ensures { refusal_in result ≡ refusal (access_refusal self access) 0 }
    {
        call_refusal(self.in_range(), is_access(access), RefusalKind::BadField)
    }

    #[tactic(auto, unfolding(crate::specs::Single::single_access))]
    pub fn single_access(self, access: Access) -> Result<SingleAccess, Refused>
        ensures { accessed self result ≡ single_access self access }
    {
        self.access_refusal(access)?;
        let made = self.access(access);
        Ok(SingleAccess {
            device: made.device,
            owner: made.owner,
            answer: made.answer,
            outputs: made.device.outputs(),
        })
    }

    pub fn event_refusal(self, number: u32) -> Result<(), Refused>
        ensures { refusal_in result ≡ refusal (event_refusal self number) 0 }
    {
        call_refusal(
            self.in_range(),
            crate::event::is_event(number),
            RefusalKind::BadEvent,
        )
    }

    #[tactic(auto, unfolding(crate::specs::Single::single_event))]
    pub fn single_event(self, number: u32) -> Result<SingleEvent, Refused>
        ensures { after_event self result ≡ single_event self number }
    {
        self.event_refusal(number)?;
        let device = self.apply_event(number);
        Ok(SingleEvent {
            device,
            outputs: device.outputs(),
        })
    }
}
