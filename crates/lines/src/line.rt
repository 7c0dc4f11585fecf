// Reads a line from left to right. What reads something moves the line past it, and answers `None` where
// something else stands there.

ghost use Rattle.std.specs.Prelude.{◌≡◌, ◌≢◌, ◌++◌, List, [], ◌∷◌, ℕ, MatchOption, IfSome, IsNone, length};
ghost use Rattle.std.specs.List.{AllWithin};

// The bytes of a line, its newline among them.
pub const WIDTH: usize = 80;

// What is left of a line.
#[derive(Clone, Copy)]
pub struct Line<'a> {
    pub rest: &'a [u8],
}

impl<'a> Line<'a> {
    // The whole line.
    pub fn new(text: &'a [u8; WIDTH]) -> Line<'a>
        ensures { result.rest.now ≡ text.now }
    {
        Line { rest: text }
    }

    // What is left behind the token, if the line begins with it.
    pub fn past(self, token: &[u8]) -> Option<Line<'a>>
        ensures { MatchOption result ((rest : List ℕ) → self.entry.rest.now ≢ token.now ++ rest) (λ line. self.entry.rest.now ≡ token.now ++ line.rest.now) }
    {
        let rest = self.rest.strip_prefix(token)?;
        Some(Line { rest })
    }

    // Moves past the token. A line that begins otherwise stays as it is.
    pub fn skip(&mut self, token: &[u8]) -> Option<()>
        ensures moved { IfSome result (λ _. self.old.rest.now ≡ token.now ++ self.new.rest.now) }
        ensures absent { IsNone result → (rest : List ℕ) → self.old.rest.now ≢ token.now ++ rest }
        ensures stays { IsNone result → self.new ≡ self.old }
    {
        *self = self.past(token)?;
        Some(())
    }

    // A space and a decimal number below 2^32.
    pub fn word(&mut self) -> Option<u32> {
        self.skip(b" ")?;
        self.decimal()
    }

    // A decimal number below 2^32, up to the next byte that is no digit.
    pub fn decimal(&mut self) -> Option<u32> {
        let count = self
            .rest
            .iter()
            .take_while(|byte| byte.is_ascii_digit())
            .count();
        let (digits, rest) = self.rest.split_at_checked(count)?;
        self.rest = rest;
        str::from_utf8(digits).ok()?.parse().ok()
    }

    // A number in sixteen hexadecimal digits.
    pub fn sixteen_digits(&mut self) -> Option<u64> {
        let (digits, rest) = self.rest.split_first_chunk::<16>()?;
        let mut value = 0;
        for digit in digits {
            value = value << 4 | u64::from(digit_value(*digit)?);
        }
        self.rest = rest;
        Some(value)
    }

    // A byte in two hexadecimal digits. A line that begins otherwise stays as it is.
    pub fn two_digits(&mut self) -> Option<u8>
        ensures stays { IsNone result → self.new ≡ self.old }
    {
        let ([high, low], rest) = self.rest.split_first_chunk::<2>()?;
        let value = digit_value(*high)? << 4 | digit_value(*low)?;
        self.rest = rest;
        Some(value)
    }

    // Whether the rest of the line is spaces and the newline.
    pub fn end(self) -> Option<()>
        ensures { IfSome result (λ _. (spaces : List ℕ) × (self.entry.rest.now ≡ spaces ++ 10 ∷ []) × AllWithin (λ byte. byte ≡ 32) spaces 0 (length spaces)) }
    {
        let spaces = self.rest.strip_suffix(b"\n")?;
        spaces.iter().all(|byte| *byte == b' ').then_some(())
    }
}

// The value of a hexadecimal digit in lower case.
// Kept: `char::to_digit` takes upper case too.
fn digit_value(byte: u8) -> Option<u8> {
    match byte {
        b'0'..=b'9' => Some(byte - b'0'),
        b'a'..=b'f' => Some(byte - b'a' + 10),
        _ => None,
    }
}
