// The address of an MMD: the port of its PHY, and its device there.
ghost use Rattle.std.specs.Prelude.{◌≡◌};
ghost use Rattle.frame.specs.Addresses.{addressable, same_address};

#[derive(Clone, Copy, PartialEq, Eq, Debug)]
pub struct MmdAddress {
    pub port: u8,
    pub device: u8,
}

const LAST_PORT: u8 = 31;

const LAST_DEVICE: u8 = 31;

impl MmdAddress {
    // Whether a frame can name it: its fields for the port and the device have five bits each.
    pub fn is_addressable(self) -> bool
        ensures { result ≡ addressable self }
    {
        self.port <= LAST_PORT && self.device <= LAST_DEVICE
    }
}
