// The parameters that questions ask about, with the codes that stand for them in a packet.
ghost use Rattle.std.specs.Prelude.{◌≡◌};
ghost use Rattle.packets.specs.Parameter.{class_of, pid_of, parameter_at};

#[derive(Clone, Copy, PartialEq, Eq)]
pub enum Parameter {
    // DISC_UNIQUE_BRANCH: who of a range is there?
    Branch = 0x0001,
    // DISC_MUTE: answer no more branches.
    Mute = 0x0002,
    // DISC_UN_MUTE: answer branches again.
    UnMute = 0x0003,
    // DEVICE_INFO: how many slots are you wide, and where do you begin?
    DeviceInfo = 0x0060,
    // DMX_START_ADDRESS: begin at this slot.
    StartAddress = 0x00F0,
}

impl Parameter {
    // The command class of a question: discovery, get or set. A table, since three parameters share one.
    pub fn class(self) -> u8
        ensures { result ≡ class_of self }
    {
        match self {
            Parameter::Branch | Parameter::Mute | Parameter::UnMute => 0x10,
            Parameter::DeviceInfo => 0x20,
            Parameter::StartAddress => 0x30,
        }
    }

    // The parameter ID. A method, which says which number it is; the numbers stand beside the cases.
    pub fn pid(self) -> u16
        ensures { result ≡ pid_of self }
    {
        self as u16
    }

    // The parameter that a class and an ID ask about, if it is one of these. No `TryFrom`, into which two numbers would go
    // without their names.
    pub fn from_codes(class: u8, pid: u16) -> Option<Parameter>
        ensures { result ≡ parameter_at class pid }
    {
        match (class, pid) {
            (0x10, 0x0001) => Some(Parameter::Branch),
            (0x10, 0x0002) => Some(Parameter::Mute),
            (0x10, 0x0003) => Some(Parameter::UnMute),
            (0x20, 0x0060) => Some(Parameter::DeviceInfo),
            (0x30, 0x00F0) => Some(Parameter::StartAddress),
            _ => None,
        }
    }
}
