// The monitor as 20 bytes, and back: the index, and then the 19 registers in the order of their indices. `state` calls it. See
// docs/STATE.md.
ghost use Rattle.std.specs.Prelude.{◌≡◌, length};
ghost use Rattle.monitor.specs.Saved.{monitor_bytes, monitor_from, monitor_saved, monitor_size};

use crate::Monitor;

impl Monitor {
    pub const SIZE: usize = 20;

    // A read-only register is saved with its reset value.
    pub fn to_bytes(self) -> [u8; Monitor::SIZE]
        ensures { result ≡ monitor_bytes self }
    {
        let registers = self.registers;
        let resets = Monitor::READ_ONLY_RESET;
        [
            self.index,
            // 40h
            registers[0],
            // 6Eh, 6Fh
            resets[0],
            resets[1],
            // 7Ch, 7Eh, 80h to 83h
            registers[1],
            registers[2],
            registers[3],
            registers[4],
            registers[5],
            registers[6],
            // 84h to 88h
            resets[2],
            resets[3],
            resets[4],
            resets[5],
            resets[6],
            // 90h, 91h, B5h to B7h
            registers[7],
            registers[8],
            registers[9],
            registers[10],
            registers[11],
        ]
    }

    // A slice, not an array, here and in `is_saved`: `state` cuts it out of a slice, and a cut is a slice.
    pub fn from_bytes(bytes: &[u8]) -> Self
        requires { length bytes.now ≡ monitor_size }
        ensures { result ≡ monitor_from bytes.now }
    {
        Monitor {
            index: bytes[0],
            registers: [
                // 40h
                bytes[1],
                // 7Ch, 7Eh, 80h to 83h
                bytes[4], bytes[5], bytes[6], bytes[7], bytes[8], bytes[9],
                // 90h, 91h, B5h to B7h
                bytes[15], bytes[16], bytes[17], bytes[18], bytes[19],
            ],
        }
    }

    // Can these bytes be a monitor? The read-only registers 6Eh, 6Fh and 84h to 88h must have their reset values.
    pub fn is_saved(bytes: &[u8]) -> bool
        requires { length bytes.now ≡ monitor_size }
        ensures { result ≡ monitor_saved bytes.now }
    {
        let resets = Monitor::READ_ONLY_RESET;
        bytes[2..4] == resets[..2] && bytes[10..15] == resets[2..]
    }
}
