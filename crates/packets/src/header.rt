// The header of a packet.

// What stands in a packet besides its data. Unique identifiers are the 48-bit numbers that stand for them. All fields are
// plain numbers, since a packet that is read can have any: codes that no parameter has, and numbers that are no key.
#[derive(Clone, Copy, PartialEq, Eq)]
pub struct Header {
    pub destination: u64,
    pub source: u64,
    pub transaction: u8,
    // The port of a question, the type of a reply.
    pub kind: u8,
    pub class: u8,
    pub pid: u16,
}
