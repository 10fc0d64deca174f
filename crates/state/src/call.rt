// One access or one event on a saved device: the device is loaded, the call is made as on any device, and the device is saved again. A
// refusal leaves the bytes unchanged. The device is read here and not by `load`, from whose result it would be copied (docs/LOOK-BACK.md, d 2).
// `runnelopal` calls these functions. See docs/CHIP.md, "Single calls".
ghost use Rattle.std.specs.Prelude.{◌≡◌};
ghost use Rattle.state.specs.Call.{
  access_reply,
  saved_access,
  bytes_after_access,
  event_reply,
  saved_event,
  bytes_after_event,
};

use access::{Access, Answer};
use device::Outputs;
use device::owner::Owner;
use outcome::Refused;

// An access that was made: the block that owned the port, its answer, and the outputs. The device after it is in the bytes.
#[derive(Clone, Copy)]
pub struct AccessReply {
    pub owner: Option<Owner>,
    pub answer: Answer,
    pub outputs: Outputs,
}

#[tactic(auto, using(crate::proofs::Calls::access_refused_reply, crate::proofs::Calls::access_refused_bytes, std::proofs::lemmas::Result::err_from_is_err_and))]
pub fn access(bytes: &mut [u8], access: Access) -> Result<AccessReply, Refused>
    ensures reply { access_reply result ≡ saved_access bytes.old access }
    ensures bytes { bytes.new ≡ bytes_after_access bytes.old access }
{
    if !crate::holds_device(bytes) {
        return Err(crate::NO_DEVICE);
    }
    let device = crate::read_from(bytes);
    device.access_refusal(access)?;
    let made = device.access(access);
    let outputs = made.device.outputs();
    crate::save(made.device, bytes)?;
    Ok(AccessReply {
        owner: made.owner,
        answer: made.answer,
        outputs,
    })
}

// The outputs after the event. The device after it is in the bytes.
#[tactic(auto, using(crate::proofs::Calls::event_refused_reply, crate::proofs::Calls::event_refused_bytes, std::proofs::lemmas::Result::err_from_is_err_and))]
pub fn event(bytes: &mut [u8], number: u32) -> Result<Outputs, Refused>
    ensures reply { event_reply result ≡ saved_event bytes.old number }
    ensures bytes { bytes.new ≡ bytes_after_event bytes.old number }
{
    if !crate::holds_device(bytes) {
        return Err(crate::NO_DEVICE);
    }
    let device = crate::read_from(bytes);
    device.event_refusal(number)?;
    let next = device.apply_event(number);
    let outputs = next.outputs();
    crate::save(next, bytes)?;
    Ok(outputs)
}
