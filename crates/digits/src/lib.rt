// Texts put into a lent buffer, one after the other. What does not fit is left out.
#![tactic(auto)]

ghost use Rattle.std.specs.Prelude.{◌≡◌, [], ◌∷◌, ◌++◌, ◌<◌, min, length};
ghost use Rattle.digits.specs.Decimal.{digit, decimal};
ghost use Rattle.digits.specs.Put.{Adds};

pub use text::Text;

mod text; // text.rt: the type

impl<'a> Text<'a> {
    // A text that begins at the buffer's front.
    pub fn at_front(out: &'a mut [u8]) -> Text<'a>
        ensures same_reference { result.out.ghost_name ≡ out.entry.ghost_name }
        ensures buffer { result.out.now ≡ out.old }
        ensures front { result.at ≡ 0 }
    {
        Text { out, at: 0 }
    }

    // A text that begins at any place of the buffer; where the place is past the end, nothing of the text has room.
    pub fn at_place(out: &'a mut [u8], place: usize) -> Text<'a>
        ensures same_reference { result.out.ghost_name ≡ out.entry.ghost_name }
        ensures buffer { result.out.now ≡ out.old }
        ensures place { result.at ≡ min place (length out.old) }
    {
        let at = place.min(out.len());
        Text { out, at }
    }

    // The place after the text.
    pub fn length(&self) -> usize
        ensures { result ≡ self.now.at }
    {
        self.at
    }

    // One byte.
    fn put_byte(&mut self, byte: u8)
        ensures { Adds self.old (byte ∷ []) self.new }
    {
        if self.at < self.out.len() {
            self.out[self.at] = byte;
            self.at += 1;
        }
    }

    // Some bytes.
    pub fn put(&mut self, bytes: &[u8])
        ensures { Adds self.old bytes.now self.new }
    {
        for byte in bytes {
            self.put_byte(*byte);
        }
    }

    // One digit.
    fn put_digit(&mut self, d: u32)
        requires { d < 10 }
        ensures { Adds self.old (digit d ∷ []) self.new }
    {
        self.put_byte(b'0' + d as u8);
    }

    // A number in decimal: the digits before the last, and the last.
    pub fn put_number(&mut self, n: u32)
        ensures { Adds self.old (decimal n) self.new }
    {
        if n < 10 {
            self.put_digit(n);
            return;
        }
        self.put_number(n / 10);
        self.put_digit(n % 10);
    }

    // Some bytes and a number.
    pub fn put_labelled(&mut self, label: &[u8], n: u32)
        ensures { Adds self.old (label.now ++ decimal n) self.new }
    {
        self.put(label);
        self.put_number(n);
    }
}
