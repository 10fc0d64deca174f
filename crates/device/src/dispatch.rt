// An access: the owner of the port answers and is named, the device takes the new state of that block, and the device settles. Any access
// to any device is answered. The single calls and the sequencer call `Device::access`. See docs/CHIP.md, "Accesses".
ghost use Rattle.std.specs.Prelude.{◌≡◌};
ghost use Rattle.access.specs.Status.{answer_of};
ghost use Rattle.device.specs.Dispatch.{access_result, final_answer, device_access, dispatch, result_of};
ghost use Rattle.device.specs.Owners.{block_number};

use crate::owner::{Owner, monitor_port};
use crate::{AccessResult, Device};
use access::{Access, Answer, Status};

// The value of a read depends on the status. The answer to a write is the answer of the owner.
fn final_answer(access: Access, answer: Answer) -> Answer
    ensures { answer_of result ≡ final_answer access (answer_of answer) }
{
    if access.write {
        return answer;
    }
    Answer {
        status: answer.status,
        value: access::read_value(answer.status, access.width, answer.value),
    }
}

impl Device {
    // The device is the one with the new state of the owner.
    fn answered(self, owner: Owner, answer: Answer) -> AccessResult
        ensures { result_of result ≡ access_result (block_number owner) (answer_of answer) self }
    {
        AccessResult {
            device: self,
            owner: Some(owner),
            answer,
        }
    }

    // The owner, its answer, and the device with the new state of that block. Four arms: each block has its own offset, arguments and field.
    fn dispatch(mut self, access: Access) -> AccessResult
        ensures { result_of result ≡ dispatch self access }
    {
        let config = self.config;
        let Some(owner) = Owner::of(config, access.port) else {
            return AccessResult {
                device: self,
                owner: None,
                answer: Answer::status_only(Status::Unclaimed.number()),
            };
        };
        match owner {
            Owner::Configuration => {
                let r = config.access(access.port - Device::INDEX_PORT, access);
                self.config = r.block;
                self.answered(owner, r.answer)
            }
            Owner::Acpi => {
                let r = self.acpi.access(access.port - Device::ACPI_FIRST, access);
                self.acpi = r.block;
                self.answered(owner, r.answer)
            }
            Owner::Monitor => {
                let r = self
                    .monitor
                    .access(access.port - monitor_port(config), access);
                self.monitor = r.block;
                self.answered(owner, r.answer)
            }
            Owner::Key => {
                let r = self
                    .key
                    .access(config.control, access.port - config.key_base(), access);
                self.key = r.block;
                self.answered(owner, r.answer)
            }
        }
    }

    // The owner of the port, the answer to the access, and the device after the access and the settling.
    #[tactic(auto, unfolding(crate::specs::Dispatch::device_access))]
    pub fn access(self, access: Access) -> AccessResult
        ensures { result_of result ≡ device_access self access }
    {
        let owned = self.dispatch(access);
        AccessResult {
            device: owned.device.settle(),
            owner: owned.owner,
            answer: final_answer(access, owned.answer),
        }
    }
}
