// What is looked for in a bank.
ghost use Rattle.std.specs.Prelude.{◌≡◌};
ghost use Rattle.bank.specs.Searches.{suits};

use frame::address::MmdAddress;

#[derive(Clone, Copy, PartialEq, Eq, Debug)]
pub enum Wanted {
    // any MMD of a port
    Port(u8),
    Mmd(MmdAddress),
}

impl Wanted {
    pub fn suits(self, address: MmdAddress) -> bool
        ensures { result ≡ suits self address }
    {
        match self {
            Wanted::Port(port) => address.port == port,
            Wanted::Mmd(wanted) => address == wanted,
        }
    }
}
