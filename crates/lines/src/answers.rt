// What a line answers.
use keys::address::Address;

// The answer to a probe of a range of keys.
#[derive(Clone, Copy, PartialEq, Eq)]
pub enum ProbeAnswer<K> {
    // Nobody replied.
    Silent,
    // One reply was read. It may have been several that overlapped, so the key need not be fitted.
    Clear(K),
    // Something was received that cannot be read.
    Garbled,
}

// What a fixture takes of the addresses of its family.
#[derive(Clone, Copy, PartialEq, Eq)]
pub struct Footprint {
    // How many.
    pub width: u16,
    // From which one on.
    pub address: Option<Address>,
}
