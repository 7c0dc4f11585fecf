// Codes of numbers, read and written, in either format.
ghost use Rattle.std.specs.Prelude.{◌≡◌};
ghost use Rattle.numbers.specs.Answer.{answer_outcome};
ghost use Rattle.codes.specs.Codes.{number_of, reading_of, writing, writing_of};

use super::decode::fit_number;
use super::layout::Layout;
use super::pack::pack;
use super::parts::from_parts;
use numbers::number::Number;
use refusals::Refusal;

// Reading and writing are the same for each type of codes.
pub trait Coded: Layout {
    // The number that the code stands for, or why there is none.
    final fn number(self) -> Result<Number, Refusal>
        ensures { answer_outcome result ≡ number_of Self.FORMAT (Self.bits self) }
    {
        fit_number(self)
    }

    // The number in the bytes of a code, or why there is none.
    final fn read(code: &[u8]) -> Result<Number, Refusal>
        ensures { answer_outcome result ≡ reading_of Self.FORMAT code.now }
    {
        if code.len() != Self::FORMAT.length {
            return Err(Refusal::WrongLength);
        }
        Self::from_bytes(code).number()
    }

    // Writes the code that equals x, or leaves the bytes as they were.
    final fn write(x: Number, bytes: &mut [u8]) -> Result<(), Refusal>
        ensures { writing result bytes.new ≡ writing_of Self.FORMAT x bytes.old }
    {
        let code = pack::<Self>(x, bytes.len())?;
        from_parts::<Self>(code).write_bytes(bytes);
        Ok(())
    }
}
