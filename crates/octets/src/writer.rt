// Writing one text behind the other into a lent buffer.
ghost use Rattle.std.specs.Prelude.{◌≡◌, ◌≤◌, length, take};

// A lent buffer, and the end of what is written in it.
#[derive(Drop)]
pub struct Writer<'a> {
    buf: &'a mut [u8],
    end: usize,
    ghost within: { end ≤ length buf.now },
}

impl<'a> Writer<'a> {
    ghost use Rattle.octets.specs.Writer.{HasRoom, Lent, Wrote};

    pub fn new(buf: &'a mut [u8]) -> Writer<'a>
        ensures { Lent buf.entry result }
    {
        Writer { buf, end: 0 }
    }

    // How much room there has to be is asked of each call, and is no fact of the type: each call takes some of it.
    pub fn put(&mut self, text: &[u8])
        requires { HasRoom (length text.now) self.old }
        ensures { Wrote self.old text.now self.new }
    {
        let end = self.end + text.len();
        self.buf[self.end..end].copy_from_slice(text);
        self.end = end;
    }

    // What is written.
    pub fn written(&self) -> &[u8]
        ensures { result.now ≡ take self.now.end self.now.buf.now }
    {
        &self.buf[..self.end]
    }

    // The length of what is written.
    pub fn len(&self) -> usize
        ensures { result ≡ self.now.end }
    {
        self.end
    }
}
