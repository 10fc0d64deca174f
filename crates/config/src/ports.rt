// Reads and writes of the index port and the data port. `Config::access` calls them. See docs/CHIP.md, "Configuration".
ghost use Rattle.std.specs.Prelude.{◌≡◌};
ghost use Rattle.access.specs.Block.{reply_of};
ghost use Rattle.access.specs.Status.{answer_of};
ghost use Rattle.config.specs.Base.{with_high, with_low};
ghost use Rattle.config.specs.Config.{
  index_read,
  index_write,
  register_read,
  register_write,
  control_write,
  data_read,
  data_write,
};

use super::Config;
use access::{Answer, Reply, Status};

impl Config {
    // While locked, only 55h has an effect. While unlocked, 55h is an index like any other value.
    #[tactic(auto, unfolding(crate::specs::Config::index_write))]
    pub fn index_write(mut self, value: u8) -> Reply<Config>
        ensures { reply_of result ≡ index_write self value }
    {
        if self.unlocked {
            if value == Config::LOCK {
                self.unlocked = false;
                return Reply::status(Status::Done, self);
            }
            self.index = value;
            return Reply::status(Status::Done, self);
        }
        if value == Config::UNLOCK {
            self.unlocked = true;
            return Reply::status(Status::Done, self);
        }
        Reply::status(Status::Unclaimed, self)
    }

    #[tactic(auto, unfolding(crate::specs::Config::index_read))]
    pub fn index_read(self) -> Answer
        ensures { answer_of result ≡ index_read self }
    {
        let locked = !self.unlocked;
        if locked {
            return Answer::status_only(Status::Unclaimed.number());
        }
        Answer::done(u32::from(self.index))
    }

    #[tactic(auto, unfolding(crate::specs::Config::data_write))]
    pub fn data_write(mut self, value: u8) -> Reply<Config>
        ensures { reply_of result ≡ data_write self value }
    {
        if self.unlocked {
            if self.index == Config::DEVICE_NUMBER {
                self.number = value;
                return Reply::status(Status::Done, self);
            }
            if self.number == Config::RUNTIME_DEVICE {
                return self.register_write(value);
            }
            return Reply::status(Status::Absent, self);
        }
        Reply::status(Status::Unclaimed, self)
    }

    #[tactic(auto, unfolding(crate::specs::Config::data_read))]
    pub fn data_read(self) -> Answer
        ensures { answer_of result ≡ data_read self }
    {
        if self.unlocked {
            if self.index == Config::DEVICE_NUMBER {
                return Answer::done(u32::from(self.number));
            }
            if self.number == Config::RUNTIME_DEVICE {
                return self.register_read();
            }
            return Answer::status_only(Status::Absent.number());
        }
        Answer::status_only(Status::Unclaimed.number())
    }

    // Writes to the registers of device 0Ah.
    #[tactic(auto, unfolding(crate::specs::Config::register_write))]
    fn register_write(mut self, value: u8) -> Reply<Config>
        ensures { reply_of result ≡ register_write self value }
    {
        let index = self.index;
        match index {
            Config::ACTIVATE => {
                self.activate = value & Config::ACTIVATE_MASK;
                Reply::status(Status::Done, self)
            }
            Config::RUNTIME_BASE_HIGH => {
                self.runtime_base = with_high(self.runtime_base, value);
                Reply::status(Status::Done, self)
            }
            Config::RUNTIME_BASE_LOW => {
                self.runtime_base = with_low(self.runtime_base, value);
                Reply::status(Status::Done, self)
            }
            Config::KEY_BASE_HIGH => {
                self.key_base = with_high(self.key_base, value);
                Reply::status(Status::Done, self)
            }
            Config::KEY_BASE_LOW => {
                self.key_base = with_low(self.key_base, value);
                Reply::status(Status::Done, self)
            }
            Config::KEY_CONTROL => self.control_write(value),
            _ => Reply::status(Status::Absent, self),
        }
    }

    #[tactic(auto, unfolding(crate::specs::Config::register_read))]
    fn register_read(self) -> Answer
        ensures { answer_of result ≡ register_read self }
    {
        let value = match self.index {
            Config::ACTIVATE => self.activate,
            Config::RUNTIME_BASE_HIGH => self.runtime_base.to_be_bytes()[0],
            Config::RUNTIME_BASE_LOW => self.runtime_base.to_be_bytes()[1],
            Config::KEY_BASE_HIGH => self.key_base.to_be_bytes()[0],
            Config::KEY_BASE_LOW => self.key_base.to_be_bytes()[1],
            Config::KEY_CONTROL => self.control,
            _ => return Answer::status_only(Status::Absent.number()),
        };
        Answer::done(u32::from(value))
    }

    // A write that sets the lock bit also stores bits 2 and 1.
    #[tactic(auto, unfolding(crate::specs::Config::control_write))]
    fn control_write(mut self, value: u8) -> Reply<Config>
        ensures { reply_of result ≡ control_write self value }
    {
        if self.control & Config::CONTROL_LOCK != 0 {
            return Reply::status(Status::Blocked, self);
        }
        self.control = value & Config::CONTROL_MASK;
        Reply::status(Status::Done, self)
    }
}

// The base with one of its bytes replaced.
fn with_high(base: u16, value: u8) -> u16
    ensures { result ≡ with_high base value }
{
    let [_, low] = base.to_be_bytes();
    u16::from_be_bytes([value, low])
}

fn with_low(base: u16, value: u8) -> u16
    ensures { result ≡ with_low base value }
{
    let [high, _] = base.to_be_bytes();
    u16::from_be_bytes([high, value])
}
