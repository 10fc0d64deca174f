// One bay: its control register (BCER), its status register (BSTR), its lines and its state. Both bays of the block are this type. See
// docs/PROMISES.md, "Device bays". The functions of `Bays` call it.
ghost use Rattle.std.specs.Prelude.{◌≡◌};
ghost use Rattle.bays.specs.Bay.{
  bay_alert,
  bay_in_range,
  bay_reset,
  control_after,
  control_value,
  control_write,
  flag_bit,
  fresh_bay,
  fresh_control,
  has_device,
  is_request,
  late_insertion,
  late_removal,
  present,
  request_code,
  requested_state,
  status_value,
  status_write,
};
ghost use Rattle.bays.specs.Lines.{
  button_pressed,
  insertion,
  lines_event,
  after_removal,
  presence_taken,
  removal,
  take1394,
  take_button,
  take_security,
  take_usb,
};

use crate::once::Once;

// BCER: LOCK_CTL, BAY_STREQ, REMREQ_EN, DEVSTSCHG_EN, REMEVTWAK_EN, PWR_CTL.
#[derive(Clone, Copy)]
pub struct Control {
    pub lock: bool,
    pub request: u8,
    pub remreqen: bool,
    pub devchgen: bool,
    pub wakeen: bool,
    pub power: bool,
}

// The levels of the four lines; true for asserted.
#[derive(Clone, Copy)]
pub struct Lines {
    pub ieee1394: bool,
    pub usb: bool,
    pub button: bool,
    pub security: bool,
}

#[derive(Clone, Copy)]
pub struct Bay {
    pub control: Control,
    // BAY_ST, and the sticky bits REMREQ_STS and DEVSTSCHG. The state, and the request in `Control`, are numbers, since saved bytes may hold any
    // byte there (`bay_from`); `in_range` tests them.
    pub state: u8,
    pub remreq: bool,
    pub devchg: bool,
    // BAY_FF.
    pub form: Once,
    pub lines: Lines,
}

impl Control {
    fn fresh() -> Self
        ensures { result ≡ fresh_control }
    {
        Control {
            lock: false,
            request: 0,
            remreqen: false,
            devchgen: false,
            wakeen: false,
            power: false,
        }
    }

    // The request and the power bit are cleared when the device leaves.
    fn after_removal(mut self) -> Self
        ensures { result ≡ after_removal self }
    {
        self.request = 0;
        self.power = false;
        self
    }

    // What a read of BCER returns.
    #[tactic(auto, unfolding(crate::specs::Bay::control_value))]
    pub fn value(self) -> u32
        ensures { result ≡ control_value self }
    {
        flag_bit(self.lock, Bay::LOCK_CTL)
            | (u32::from(self.request) * 16
                | (flag_bit(self.remreqen, Bay::REMREQ_EN)
                    | (flag_bit(self.devchgen, Bay::DEVSTSCHG_EN)
                        | (flag_bit(self.wakeen, Bay::REMEVTWAK_EN)
                            | flag_bit(self.power, Bay::PWR_CTL)))))
    }
}

impl Lines {
    // Is there a device? It asserts 1394, USB, or both.
    pub fn present(self) -> bool
        ensures { result ≡ present self }
    {
        self.ieee1394 | self.usb
    }
}

impl Bay {
    // The states, in BAY_ST and BAY_STREQ.
    pub const EMPTY: u8 = 0;

    pub const INSERTED: u8 = 1;

    pub const ENABLED: u8 = 2;

    pub const REMOVAL_REQUESTED: u8 = 3;

    pub const REMOVAL_ALLOWED: u8 = 4;

    pub const FORM_MAX: u16 = 7;
    // Bits of BCER.
    pub const LOCK_CTL: u32 = 0x80;

    pub const REMREQ_EN: u32 = 0x08;

    pub const DEVSTSCHG_EN: u32 = 0x04;

    pub const REMEVTWAK_EN: u32 = 0x02;

    pub const PWR_CTL: u32 = 0x01;
    // Bits of BSTR.
    pub const SL_STS: u32 = 0x80;

    pub const REMREQ_STS: u32 = 0x08;

    pub const DEVSTSCHG: u32 = 0x04;

    pub const PRSN_STS_1394: u32 = 0x02;

    pub const PRSN_STS_USB: u32 = 0x01;
    // Bits of the operand of an event: the new levels of the lines.
    pub const LINE_1394: u32 = 0x01;

    pub const LINE_USB: u32 = 0x02;

    pub const LINE_BUTTON: u32 = 0x04;

    pub const LINE_SECURITY: u32 = 0x08;

    pub fn fresh() -> Self
        ensures { result ≡ fresh_bay }
    {
        let control = Control::fresh();
        let form = Once::fresh();
        Bay {
            control,
            state: Bay::EMPTY,
            remreq: false,
            devchg: false,
            form,
            lines: Lines {
                ieee1394: false,
                usb: false,
                button: false,
                security: false,
            },
        }
    }

    // Reset 2: the form factor and the lines stay. A bay with a device is then Inserted.
    #[tactic(auto, unfolding(crate::specs::Bay::bay_reset))]
    pub fn reset(self) -> Self
        ensures { result ≡ bay_reset self }
    {
        let control = Control::fresh();
        let form = self.form;
        let lines = self.lines;
        let mut state = Bay::EMPTY;
        if lines.present() {
            state = Bay::INSERTED;
        }
        Bay {
            control,
            state,
            remreq: false,
            devchg: false,
            form,
            lines,
        }
    }

    #[tactic(auto, unfolding(crate::specs::Bay::bay_in_range))]
    pub fn in_range(self) -> bool
        ensures { result ≡ bay_in_range self }
    {
        (self.control.request <= Bay::REMOVAL_ALLOWED)
            & ((self.state <= Bay::REMOVAL_ALLOWED) & (self.form.value <= Bay::FORM_MAX))
    }

    // Is a sticky bit set and enabled?
    #[tactic(auto, unfolding(crate::specs::Bay::bay_alert))]
    pub fn alert(self) -> bool
        ensures { result ≡ bay_alert self }
    {
        (self.remreq & self.control.remreqen) | (self.devchg & self.control.devchgen)
    }

    fn has_device(self) -> bool
        ensures { result ≡ has_device self }
    {
        self.lines.present()
    }

    // What a read of BSTR returns. `seclock` is SECLOCK of DBCCR.
    #[tactic(auto, unfolding(crate::specs::Bay::status_value))]
    pub fn status_value(self, seclock: bool) -> u32
        ensures { result ≡ status_value seclock self }
    {
        u32::from(self.form.value) * 256
            | (flag_bit(seclock & self.lines.security, Bay::SL_STS)
                | (u32::from(self.state) * 16
                    | (flag_bit(self.remreq, Bay::REMREQ_STS)
                        | (flag_bit(self.devchg, Bay::DEVSTSCHG)
                            | (flag_bit(self.lines.ieee1394, Bay::PRSN_STS_1394)
                                | flag_bit(self.lines.usb, Bay::PRSN_STS_USB))))))
    }

    // BCER after a write. The power bit needs a device, and a lock control that was set before the write.
    #[tactic(auto, unfolding(crate::specs::Bay::control_after))]
    fn control_after(self, value: u32) -> Control
        ensures { result ≡ control_after self value }
    {
        let before = self.control;
        let lock = value & Bay::LOCK_CTL != 0;
        let mut request = before.request;
        let code = request_code(value);
        if is_request(code) {
            request = code;
        }
        Control {
            lock,
            request,
            remreqen: value & Bay::REMREQ_EN != 0,
            devchgen: value & Bay::DEVSTSCHG_EN != 0,
            wakeen: value & Bay::REMEVTWAK_EN != 0,
            power: (value & Bay::PWR_CTL != 0) & (self.has_device() & before.lock),
        }
    }

    // The state that a write to BCER requests. Without a device the state stays.
    #[tactic(auto, unfolding(crate::specs::Bay::requested_state))]
    fn requested_state(self, value: u32) -> u8
        ensures { result ≡ requested_state self value }
    {
        let code = request_code(value);
        if is_request(code) & self.has_device() {
            return code;
        }
        self.state
    }

    // DEVSTSCHG_EN set by a write to BCER, after DEVSTSCHG was set: an Empty bay with a device becomes Inserted.
    #[tactic(auto, unfolding(crate::specs::Bay::late_insertion))]
    fn late_insertion(self, value: u32, state: u8) -> u8
        ensures { result ≡ late_insertion self value state }
    {
        let rises = !self.control.devchgen & (value & Bay::DEVSTSCHG_EN != 0);
        if rises & (self.devchg & (self.has_device() & (state == Bay::EMPTY))) {
            return Bay::INSERTED;
        }
        state
    }

    // REMREQ_EN set by a write to BCER, after REMREQ_STS was set: a bay with a device becomes Removal Requested.
    #[tactic(auto, unfolding(crate::specs::Bay::late_removal))]
    fn late_removal(self, value: u32, state: u8) -> u8
        ensures { result ≡ late_removal self value state }
    {
        let rises = !self.control.remreqen & (value & Bay::REMREQ_EN != 0);
        if rises & (self.remreq & self.has_device()) {
            return Bay::REMOVAL_REQUESTED;
        }
        state
    }

    // A write to BCER.
    #[tactic(auto, unfolding(crate::specs::Bay::control_write))]
    pub fn control_write(mut self, value: u32) -> Self
        ensures { result ≡ control_write self value }
    {
        let control = self.control_after(value);
        let requested = self.requested_state(value);
        let inserted = self.late_insertion(value, requested);
        self.state = self.late_removal(value, inserted);
        self.control = control;
        self
    }

    // A write to BSTR: 1 clears a sticky bit, and the first write stores the form factor.
    #[tactic(auto, unfolding(crate::specs::Bay::status_write))]
    pub fn status_write(mut self, value: u32) -> Self
        ensures { result ≡ status_write self value }
    {
        self.form = self.form.write((value / 256 % 8) as u16);
        self.remreq &= value & Bay::REMREQ_STS == 0;
        self.devchg &= value & Bay::DEVSTSCHG == 0;
        self
    }

    #[tactic(auto, unfolding(crate::specs::Lines::insertion))]
    fn insertion(mut self) -> Self
        ensures { result ≡ insertion self }
    {
        self.devchg = true;
        if self.control.devchgen {
            self.state = Bay::INSERTED;
        }
        self
    }

    // DEVSTSCHG is set, unless removal was allowed and is no wake event.
    #[tactic(auto, unfolding(crate::specs::Lines::removal))]
    fn removal(mut self) -> Self
        ensures { result ≡ removal self }
    {
        let allowed = self.state == Bay::REMOVAL_ALLOWED;
        self.devchg |= !(allowed & !self.control.wakeen);
        self.state = Bay::EMPTY;
        self.control = self.control.after_removal();
        self
    }

    // A new level of 1394 or USB; the other lines are as before.
    #[tactic(auto, unfolding(crate::specs::Lines::presence_taken))]
    fn take_presence(mut self, lines: Lines) -> Self
        ensures { result ≡ presence_taken self lines }
    {
        let before = self.has_device();
        let after = lines.present();
        self.lines = lines;
        if before {
            if after {
                return self;
            }
            return self.removal();
        }
        if after {
            return self.insertion();
        }
        self
    }

    #[tactic(auto, unfolding(crate::specs::Lines::take1394))]
    fn take_1394(self, level: bool) -> Self
        ensures { result ≡ take1394 self level }
    {
        let mut lines = self.lines;
        lines.ieee1394 = level;
        self.take_presence(lines)
    }

    #[tactic(auto, unfolding(crate::specs::Lines::take_usb))]
    fn take_usb(self, level: bool) -> Self
        ensures { result ≡ take_usb self level }
    {
        let mut lines = self.lines;
        lines.usb = level;
        self.take_presence(lines)
    }

    #[tactic(auto, unfolding(crate::specs::Lines::button_pressed))]
    fn button_pressed(mut self) -> Self
        ensures { result ≡ button_pressed self }
    {
        self.remreq = true;
        if self.control.remreqen {
            self.state = Bay::REMOVAL_REQUESTED;
        }
        self
    }

    // The button acts when it is pressed, and only with a device.
    #[tactic(auto, unfolding(crate::specs::Lines::take_button))]
    fn take_button(mut self, level: bool) -> Self
        ensures { result ≡ take_button self level }
    {
        let pressed = level & (!self.lines.button & self.has_device());
        self.lines.button = level;
        if pressed {
            return self.button_pressed();
        }
        self
    }

    #[tactic(auto, unfolding(crate::specs::Lines::take_security))]
    fn take_security(mut self, level: bool) -> Self
        ensures { result ≡ take_security self level }
    {
        self.lines.security = level;
        self
    }

    // The lines are taken one after the other, and each finds what the ones before it did.
    #[tactic(auto, unfolding(crate::specs::Lines::lines_event))]
    pub fn lines_event(self, operand: u32) -> Self
        ensures { result ≡ lines_event self operand }
    {
        let after_1394 = self.take_1394(operand & Bay::LINE_1394 != 0);
        let after_usb = after_1394.take_usb(operand & Bay::LINE_USB != 0);
        let after_button = after_usb.take_button(operand & Bay::LINE_BUTTON != 0);
        after_button.take_security(operand & Bay::LINE_SECURITY != 0)
    }
}

// The bit of a register that shows a flag.
fn flag_bit(flag: bool, mask: u32) -> u32
    ensures { result ≡ flag_bit flag mask }
{
    if flag {
        return mask;
    }
    0
}

// BAY_STREQ, as it is written to BCER.
fn request_code(value: u32) -> u8
    ensures { result ≡ request_code value }
{
    (value / 16 % 8) as u8
}

// Codes 1 to 4 name a state. 0 and 5 to 7 request nothing.
fn is_request(code: u8) -> bool
    ensures { result ≡ is_request code }
{
    matches!(code, Bay::INSERTED..=Bay::REMOVAL_ALLOWED)
}
