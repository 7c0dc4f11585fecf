// Figures, added to a text.
ghost use Rattle.std.specs.Prelude.{◌++◌, ◌≡◌};
ghost use Rattle.text.specs.Text.{text_of, cut, figure_text};

use super::text::Text;
use numbers::number::Number;

impl Text {
    // The text with a figure more: `zero`, or the significand and the exponent. A figure is never
    // negative, and no sign is written.
    pub fn with_figure(self, x: Number) -> Text
        ensures { text_of result ≡ cut (text_of self ++ figure_text x) }
    {
        match x {
            Number::Zero => self.with_bytes(b"zero"),
            Number::Finite {
                negative: _,
                exponent,
                significand,
            } => self
                .with_sixteen_digits(significand)
                .with_bytes(b" ")
                .with_integer(exponent),
        }
    }
}
