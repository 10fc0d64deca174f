// The configuration as 9 bytes, and back. `state` calls it. See docs/STATE.md.
ghost use Rattle.std.specs.Prelude.{◌≡◌, length};
ghost use Rattle.config.specs.Saved.{config_bytes, config_from, config_saved, config_size};

use super::Config;

impl Config {
    pub const SIZE: usize = 9;

    pub fn to_bytes(self) -> [u8; Config::SIZE]
        ensures { result ≡ config_bytes self }
    {
        let [runtime_high, runtime_low] = self.runtime_base.to_be_bytes();
        let [key_high, key_low] = self.key_base.to_be_bytes();
        [
            u8::from(self.unlocked),
            self.index,
            self.number,
            self.activate,
            runtime_high,
            runtime_low,
            key_high,
            key_low,
            self.control,
        ]
    }

    // A slice, not an array, here and in `is_saved`: `state` cuts it out of a slice, and a cut is a slice.
    #[tactic(auto, unfolding(crate::specs::Saved::config_from))]
    pub fn from_bytes(bytes: &[u8]) -> Self
        requires { length bytes.now ≡ config_size }
        ensures { result ≡ config_from bytes.now }
    {
        Config {
            unlocked: bytes[0] == 1,
            index: bytes[1],
            number: bytes[2],
            activate: bytes[3],
            runtime_base: u16::from_be_bytes([bytes[4], bytes[5]]),
            key_base: u16::from_be_bytes([bytes[6], bytes[7]]),
            control: bytes[8],
        }
    }

    // Can these bytes be a configuration? The flag must be 0 or 1.
    pub fn is_saved(bytes: &[u8]) -> bool
        requires { length bytes.now ≡ config_size }
        ensures { result ≡ config_saved bytes.now }
    {
        bytes[0] < 2
    }
}
