// The device and the sequencer that `replay` keeps from one command to the next, and what the commands do with them.
use crate::answer;
use crate::buffers::{RunInput, fill, run};
use crate::command::Command;
use access::Access;
use device::Device;
use digits::Writer;
use outcome::Refused;
use record::Record;
use step::Sequencer;

#[derive(Drop)]
pub struct Session {
    pub device: Device,
    sequencer: Sequencer,
}

fn assemble(text: &[u8], records: &mut [u8]) -> Result<u32, Refused> {
    match assembler::assemble(text, records) {
        Ok(count) => Ok(answer::short(count)),
        Err(refused) => Err(Refused {
            kind: refused.kind,
            place: answer::short(refused.line),
        }),
    }
}

fn list(script: &[u8], text: &mut [u8]) -> Result<u32, Refused> {
    let length = lister::list(script, text)?;
    Ok(answer::short(length))
}

impl Session {
    pub fn fresh() -> Self {
        Session {
            device: Device::fresh(),
            sequencer: Sequencer::fresh(),
        }
    }

    // Performs a command and writes the answer. There is none if the command is too large for the buffers, or if a byte string has another length than
    // the command takes, or a character that is not a digit. Then nothing has changed.
    pub fn perform(&mut self, command: Command, answer: &mut Writer) -> Option<()> {
        match command {
            Command::Access(access) => self.access(access, answer),
            Command::Event(number) => self.event(number, answer),
            Command::Outputs => {
                answer.put_text(b"OUTPUTS ");
                answer::put_outputs(answer, self.device.outputs());
            }
            Command::State => {
                answer.put_text(b"STATE ");
                answer::put_state(answer, self.device);
            }
            Command::Load(bytes) => self.load(bytes.to_array()?, answer),
            Command::Fresh => {
                self.device = Device::fresh();
                answer.put_text(b"FRESH");
            }
            Command::Compile(filling) => fill(filling, b"COMPILED ", compiler::compile, answer)?,
            Command::Assemble(filling) => fill(filling, b"ASSEMBLED ", assemble, answer)?,
            Command::List(filling) => fill(filling, b"LISTED ", list, answer)?,
            Command::SetSequencer(sequencer) => {
                self.sequencer = sequencer;
                answer.put_text(b"SET");
            }
            Command::Sequencer => {
                answer.put_text(b"SEQUENCER ");
                answer::put_bytes(answer, &sequencer_state::bytes_of(self.sequencer));
            }
            Command::LoadSequencer(bytes) => self.load_sequencer(bytes.to_array()?, answer),
            Command::Run(request) => run(request, self, Session::run, answer)?,
            Command::CompileAndRun(request) => run(
                request,
                self,
                Session::compile_and_run,
                answer,
            )?,
            Command::Interpret(request) => run(request, self, Session::interpret, answer)?,
        }
        Some(())
    }

    fn access(&mut self, access: Access, answer: &mut Writer) {
        match self.device.single_access(access) {
            Ok(made) => {
                self.device = made.device;
                answer::put_access(answer, made);
            }
            Err(refused) => answer::put_refused(answer, refused),
        }
    }

    fn event(&mut self, number: u32, answer: &mut Writer) {
        match self.device.single_event(number) {
            Ok(made) => {
                self.device = made.device;
                answer.put_text(b"DONE ");
                answer::put_outputs(answer, made.outputs);
            }
            Err(refused) => answer::put_refused(answer, refused),
        }
    }

    // After a refusal the device stays as it was.
    fn load(&mut self, bytes: [u8; state::SIZE], answer: &mut Writer) {
        let loaded = state::load(&bytes);
        self.device = state::device_or(loaded, self.device);
        match loaded {
            Ok(_) => answer.put_text(b"LOADED"),
            Err(refused) => answer::put_refused(answer, refused),
        }
    }

    // After a refusal the sequencer stays as it was. `load` is the same for the device: one function would need both the loader and the field.
    fn load_sequencer(&mut self, bytes: [u8; sequencer_state::SIZE], answer: &mut Writer) {
        let loaded = sequencer_state::load(&bytes);
        self.sequencer = sequencer_state::sequencer_or(loaded, self.sequencer);
        match loaded {
            Ok(_) => answer.put_text(b"LOADED"),
            Err(refused) => answer::put_refused(answer, refused),
        }
    }

    // ---- runs

    fn run(&mut self, run: RunInput, log: &mut [u64], answer: &mut Writer) {
        self.run_image(run.bytes, run, log, answer);
    }

    // After a refusal the session is unchanged.
    fn run_image(&mut self, image: &[u8], run: RunInput, log: &mut [u64], answer: &mut Writer) {
        match sequencer::run(
            image,
            self.device,
            self.sequencer,
            run.events,
            run.budget,
            log,
        ) {
            Ok(r) => {
                self.device = r.device;
                self.sequencer = r.sequencer;
                answer::put_ended(answer, r.ending, r.steps, r.taken, r.logged);
            }
            Err(refused) => answer::put_refused(answer, refused),
        }
        answer::put_sequencer(answer, self.sequencer);
    }

    // Compiles a script and runs its image.
    fn compile_and_run(&mut self, run: RunInput, log: &mut [u64], answer: &mut Writer) {
        // An image buffer of this size is long enough for every script.
        let mut image = [0; Record::SIZE * Record::MOST];
        match compiler::compile(run.bytes, &mut image) {
            Ok(words) => {
                let end = Record::SIZE * words as usize;
                self.run_image(&image[..end], run, log, answer);
            }
            Err(refused) => {
                answer::put_refused(answer, refused);
                answer::put_sequencer(answer, self.sequencer);
            }
        }
    }

    // Interprets a script on the device of the session. The answer has no sequencer.
    fn interpret(&mut self, run: RunInput, log: &mut [u64], answer: &mut Writer) {
        match interpreter::interpret(run.bytes, self.device, run.events, run.budget, log) {
            Ok(r) => {
                self.device = r.device;
                answer::put_ended(answer, r.ending, r.steps, r.taken, r.logged);
            }
            Err(refused) => answer::put_refused(answer, refused),
        }
    }
}
