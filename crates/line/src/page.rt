// The bytes of a printed line, written one after the other; a full page takes no more.
ghost use Rattle.std.specs.Prelude.{◌≡◌, ◌≤◌, [], ◌∷◌, length};
ghost use Rattle.line.specs.Pages.{Puts};

use arrayvec::ArrayVec;
use itoa::{Buffer, Integer};

// No printed line has more than 1,024 bytes, its newline counted.
#[derive(Drop)]
pub(crate) struct Page {
    bytes: ArrayVec<u8, 1024>,
}

impl Page {
    pub(crate) fn new() -> Page
        ensures { result.bytes.items ≡ [] }
    {
        Page {
            bytes: ArrayVec::new(),
        }
    }

    pub(crate) fn as_slice(&self) -> &[u8]
        ensures bytes { result.now ≡ self.now.bytes.items }
        ensures fits { length result.now ≤ 1024 }
    {
        self.bytes.as_slice()
    }

    pub(crate) fn byte(&mut self, b: u8)
        ensures { Puts self.old (b ∷ []) self.new }
    {
        let _ = self.bytes.try_push(b);
    }

    pub(crate) fn text(&mut self, bytes: &[u8])
        ensures { Puts self.old bytes.now self.new }
    {
        let _ = self.bytes.try_extend_from_slice(bytes);
    }

    pub(crate) fn number<I: Integer>(&mut self, n: I)
        ensures { Puts self.old (I.text n) self.new }
    {
        let mut digits = Buffer::new();
        self.text(digits.format(n).as_bytes());
    }
}
