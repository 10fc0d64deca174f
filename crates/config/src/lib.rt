// The configuration block: its registers, with key control. See docs/CHIP.md, "Configuration".
// `device` calls it. The offset of an access is 0 for the index port and 1 for the data port. ports.rt has the two ports,
// bytes.rt the saved form.
#![tactic(auto)]

mod bytes;
mod ports;

ghost use Rattle.std.specs.Prelude.{◌≡◌};
ghost use Rattle.access.specs.Block.{reply_of};
ghost use Rattle.config.specs.Config.{
  fresh_config,
  config_reset,
  config_in_range,
  runtime_base,
  key_base,
  config_access,
};

use access::{Access, Reply, Status};

// The order of the fields was chosen for speed. See bench/README.md.
#[derive(Clone, Copy)]
pub struct Config {
    // The bases are stored as written, without their masks.
    pub runtime_base: u16,
    pub key_base: u16,
    pub activate: u8,
    pub index: u8,
    pub unlocked: bool,
    // The device number.
    pub number: u8,
    // Key control.
    pub control: u8,
}

impl Config {
    // The offset of the index port. Any other offset is the data port.
    pub const INDEX_PORT: u32 = 0;

    // Written to the index port, these values unlock and lock the configuration.
    pub const UNLOCK: u8 = 0x55;

    pub const LOCK: u8 = 0xAA;

    // Indices of the data registers.
    pub const DEVICE_NUMBER: u8 = 0x07;

    pub const ACTIVATE: u8 = 0x30;

    pub const RUNTIME_BASE_HIGH: u8 = 0x60;

    pub const RUNTIME_BASE_LOW: u8 = 0x61;

    pub const KEY_BASE_HIGH: u8 = 0x62;

    pub const KEY_BASE_LOW: u8 = 0x63;

    pub const KEY_CONTROL: u8 = 0xF2;

    // The device number that all registers except 07h require.
    pub const RUNTIME_DEVICE: u8 = 0x0A;

    pub const ACTIVATE_MASK: u8 = 0x01;

    pub const CONTROL_MASK: u8 = 0x07;

    pub const CONTROL_RESET: u8 = 0x04;

    pub const CONTROL_LOCK: u8 = 0x01;

    pub const RUNTIME_BASE_MASK: u16 = 0xFF80;

    pub const KEY_BASE_MASK: u16 = 0xFFE0;

    pub fn fresh() -> Self
        ensures { result ≡ fresh_config }
    {
        Config {
            unlocked: false,
            index: 0,
            number: 0,
            activate: 0,
            runtime_base: 0,
            key_base: 0,
            control: Config::CONTROL_RESET,
        }
    }

    // Every reset resets the whole configuration. The level is a number, since `config_reset` says what any number does.
    pub fn reset(self, level: u32) -> Self
        ensures { result ≡ config_reset self level }
    {
        Config::fresh()
    }

    // Only activate and key control have a mask. The other registers take any value.
    #[tactic(auto, unfolding(crate::specs::Config::config_in_range))]
    pub fn in_range(self) -> bool
        ensures { result ≡ config_in_range self }
    {
        self.activate & Config::ACTIVATE_MASK == self.activate
            && self.control & Config::CONTROL_MASK == self.control
    }

    // The effective bases: the stored values with the low bits masked off.
    pub fn runtime_base(self) -> u32
        ensures { result ≡ runtime_base self }
    {
        u32::from(self.runtime_base & Config::RUNTIME_BASE_MASK)
    }

    pub fn key_base(self) -> u32
        ensures { result ≡ key_base self }
    {
        u32::from(self.key_base & Config::KEY_BASE_MASK)
    }

    #[tactic(auto, unfolding(crate::specs::Config::config_access))]
    pub fn access(self, offset: u32, access: Access) -> Reply<Config>
        ensures { reply_of result ≡ config_access self offset access }
    {
        if !access::takes_byte(access.width) {
            return Reply::status(Status::Unclaimed, self);
        }
        let value = (access.value % 256) as u8;
        match (offset, access.write) {
            (Config::INDEX_PORT, true) => self.index_write(value),
            (Config::INDEX_PORT, false) => Reply {
                block: self,
                answer: self.index_read(),
            },
            (_, true) => self.data_write(value),
            (_, false) => Reply {
                block: self,
                answer: self.data_read(),
            },
        }
    }
}
