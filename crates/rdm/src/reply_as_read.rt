// What a reader makes of a reply.
ghost use Rattle.std.specs.Prelude.{◌≡◌, ◌≤◌, length};

use crate::reply::Response;

// A reply as it was read. Its data is a part of the bytes that it was read from, and begins at this place of them, which is
// told so that no reader of it has to know the header.
#[derive(Clone, Copy)]
pub struct ReadReply<'a> {
    pub response: Response,
    pub place: usize,
    pub payload: &'a [u8],
    ghost behind_the_header: { place ≡ 24 },
    ghost short: { length payload.now ≤ 231 },
}
