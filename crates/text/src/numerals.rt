// Whole numbers in decimal and in hexadecimal, added to a text.
ghost use Rattle.std.specs.Prelude.{◌++◌, ◌≡◌};
ghost use Rattle.text.specs.Text.{text_of, cut, decimal_of, sixteen_digits, integer_text};

use super::text::Text;

impl Text {
    // The text with n in decimal more.
    // Kept: beside `with_sixteen_digits`. The library has a function for each, and gives a count.
    pub fn with_decimal(self, n: u64) -> Text
        ensures { text_of result ≡ cut (text_of self ++ decimal_of n) }
    {
        let mut digits = [0u8; 20];
        let count = io::decimal(n, &mut digits);
        self.with_bytes(&digits[..count])
    }

    // The text with n in sixteen hexadecimal digits more.
    pub fn with_sixteen_digits(self, n: u64) -> Text
        ensures { text_of result ≡ cut (text_of self ++ sixteen_digits n) }
    {
        let mut digits = [0u8; 16];
        let count = io::hex(n, 16, &mut digits);
        self.with_bytes(&digits[..count])
    }

    // The text with x in decimal more, a minus before it where x is negative.
    pub fn with_integer(self, x: i32) -> Text
        ensures { text_of result ≡ cut (text_of self ++ integer_text x) }
    {
        let magnitude = u64::from(x.unsigned_abs());
        if x < 0 {
            return self.with_bytes(b"-").with_decimal(magnitude);
        }
        self.with_decimal(magnitude)
    }
}
