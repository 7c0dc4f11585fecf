// A text: bytes in an array, and how many of them are written.
ghost use Rattle.std.specs.Prelude.{[], ◌∷◌, ◌++◌, ◌≡◌, length};
ghost use Rattle.text.specs.Text.{text_of, cut};

// The most bytes of a text: room for five lines with three whole numbers of at most twenty digits and
// two figures, 168 bytes by the bounds of proofs/Laws/Lengths.
pub const CAPACITY: usize = 192;

// The bytes before `length` are the text; those behind it mean nothing.
// Kept: an array with its length beside. `text_of` speaks of both fields, and public functions take a text
// by value, as often as one likes; an `ArrayVec` isn't `Copy`.
#[derive(Clone, Copy)]
pub struct Text {
    pub bytes: [u8; CAPACITY],
    pub length: usize,
}

impl Text {
    // A text with nothing written.
    pub fn empty() -> Text
        ensures { text_of result ≡ [] }
    {
        Text {
            bytes: [0; CAPACITY],
            length: 0,
        }
    }

    // How many bytes are written.
    pub fn count(self) -> usize
        ensures { result ≡ length (text_of self) }
    {
        self.length.min(CAPACITY)
    }

    // The text with one byte more, or as it is where it is full.
    pub fn with_byte(mut self, byte: u8) -> Text
        ensures { text_of result ≡ cut (text_of self ++ (byte ∷ [])) }
    {
        if self.length < CAPACITY {
            self.bytes[self.length] = byte;
            self.length += 1;
        }
        self
    }

    // The text with these bytes more, as many as have room.
    // Kept: no Display, here and in other modules. Each promises its text, cut to the room there is.
    pub fn with_bytes(self, more: &[u8]) -> Text
        ensures { text_of result ≡ cut (text_of self ++ more.now) }
    {
        let mut text = self;
        for byte in more {
            text = text.with_byte(*byte);
        }
        text
    }
}
