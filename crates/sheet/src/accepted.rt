ghost use Rattle.std.specs.Prelude.{◌≡◌, ◌<◌, IfOk};
ghost use Rattle.outcome.specs.Refused.{refusal_in};
ghost use Rattle.sheet.specs.Sheet.{bound_of, count_of, entry_start, sheet_refusal};

use crate::{HEAD, Question, next_start};
use outcome::Refusal;

// The bytes of a sheet that is accepted.
#[derive(Clone, Copy)]
pub struct Sheet<'a> {
    pub bytes: &'a [u8],
    pub ghost accepted: { sheet_refusal bytes.now ≡ 0 },
}

impl<'a> Sheet<'a> {
    // Check a sheet: its bytes as those of an accepted sheet, or the first refusal that applies (as `check`).
    pub fn check(bytes: &'a [u8]) -> Result<Sheet<'a>, Refusal>
        ensures refusal { refusal_in result ≡ sheet_refusal bytes.now }
        ensures bytes { IfOk result (λ s. s.bytes ≡ bytes.entry) }
    {
        crate::check(bytes)?;
        Ok(Sheet { bytes })
    }

    // How many entries it has.
    pub fn entries(self) -> u16
        ensures { result ≡ count_of self.entry.bytes.now }
    {
        fields::get::<2>(self.bytes, 6) as u16
    }

    // Its bound.
    pub fn bound(self) -> u8
        ensures { result ≡ bound_of self.entry.bytes.now }
    {
        self.bytes[5]
    }

    // The byte where an entry starts.
    pub fn entry_start(self, question: Question) -> usize
        requires { question.0 < count_of self.bytes.now }
        ensures { result ≡ entry_start self.entry.bytes.now question.0 }
    {
        let mut at = HEAD;
        for _ in 0..question.0 {
            at = next_start(self.bytes, at);
        }
        at
    }
}
