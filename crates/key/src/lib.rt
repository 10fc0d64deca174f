// The key block: 32 key bytes, under the locks of key control. See docs/CHIP.md, "Key".
// `device` calls it. Key control belongs to the configuration, so the device passes it with each access.
#![tactic(auto)]

ghost use Rattle.std.specs.Prelude.{◌≡◌, ◌<◌, length};
ghost use Rattle.access.specs.Block.{reply_of};
ghost use Rattle.access.specs.Status.{answer_of};
ghost use Rattle.key.specs.Key.{fresh_key, key_reset, key_read, key_write, key_access};
ghost use Rattle.key.specs.Saved.{key_bytes, key_from, key_size};

use access::{Access, Answer, Reply, Status};

#[derive(Clone, Copy)]
pub struct Key {
    pub bytes: [u8; 32],
}

impl Key {
    // The length of the saved form.
    pub const SIZE: usize = 32;

    // Bits of key control.
    pub const READ_LOCK: u8 = 0x02;

    pub const WRITE_LOCK: u8 = 0x04;

    // The only reset that clears the key bytes.
    pub const VBAT_RESET: u32 = 3;

    pub fn fresh() -> Self
        ensures { result ≡ fresh_key }
    {
        Key { bytes: [0; 32] }
    }

    // The level is a number, since `key_reset` says what any number does.
    pub fn reset(self, level: u32) -> Self
        ensures { result ≡ key_reset self level }
    {
        if level < Key::VBAT_RESET {
            return self;
        }
        Key::fresh()
    }

    // An access to the key byte at an offset. `control` is key control.
    #[tactic(auto, unfolding(crate::specs::Key::key_access))]
    pub fn access(self, control: u8, offset: u32, access: Access) -> Reply<Key>
        requires { offset < key_size }
        ensures { reply_of result ≡ key_access self control offset access }
    {
        if !access::takes_byte(access.width) {
            return Reply::status(Status::Unclaimed, self);
        }
        let at = offset as usize;
        if access.write {
            return self.write(control, at, (access.value % 256) as u8);
        }
        Reply {
            block: self,
            answer: self.read(control, at),
        }
    }

    // `at` is below 32 here, in `write` and in `access`: a type for that fact would need a view of its own for three short functions.
    #[tactic(auto, unfolding(crate::specs::Key::key_read))]
    fn read(self, control: u8, at: usize) -> Answer
        requires { at < key_size }
        ensures { answer_of result ≡ key_read self control at }
    {
        if control & Key::READ_LOCK != 0 {
            return Answer::status_only(Status::Blocked.number());
        }
        Answer::done(u32::from(self.bytes[at]))
    }

    #[tactic(auto, unfolding(crate::specs::Key::key_write))]
    fn write(mut self, control: u8, at: usize, value: u8) -> Reply<Key>
        requires { at < key_size }
        ensures { reply_of result ≡ key_write self control at value }
    {
        if control & Key::WRITE_LOCK != 0 {
            return Reply::status(Status::Blocked, self);
        }
        self.bytes[at] = value;
        Reply::status(Status::Done, self)
    }

    pub fn to_bytes(self) -> [u8; Key::SIZE]
        ensures { result ≡ key_bytes self }
    {
        self.bytes
    }

    // A slice, not an array: `state` cuts it out of a slice, and a cut is a slice.
    pub fn from_bytes(bytes: &[u8]) -> Self
        requires { length bytes.now ≡ key_size }
        ensures { result ≡ key_from bytes.now }
    {
        let mut key = [0; Key::SIZE];
        key.copy_from_slice(bytes);
        Key { bytes: key }
    }
}
