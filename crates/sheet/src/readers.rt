// A reader of the sheet: bytes, words and values, each from where the one before it ended.
ghost use Rattle.std.specs.Prelude.{◌≡◌, ◌+◌, ◌*◌, ◌≤◌, ◌^◌, take, IfOk};
ghost use Rattle.sheet.specs.Readers.{byte, word, part, any, between};
ghost use Rattle.sheet.specs.Sections.{value};
ghost use Rattle.sheet.specs.Told.{Reads, ReadsAs, left};

use polyvalues::{in_range, of_bytes};

// The place of the first wrong byte.
#[derive(Clone, Copy, Debug, PartialEq, Eq)]
pub struct Wrong(pub usize);

// The sheet, and the place where the next reading begins. What reads by it is inlined, so that the place
// is kept at hand: an event takes half the time so.
#[derive(Drop)]
pub(crate) struct Reader<'a> {
    pub(crate) sheet: &'a [u8],
    pub(crate) at: usize,
}

impl Reader<'_> {
    // A byte.
    #[tactic(auto, using(crate::proofs::Reading::byte_past, crate::proofs::Reading::byte_there))]
    #[inline(always)]
    pub(crate) fn byte(&mut self) -> Result<u8, Wrong>
        ensures { Reads (byte any) self.old self.new result }
    {
        let &value = self.sheet.get(self.at).ok_or(Wrong(self.at))?;
        self.at += 1;
        Ok(value)
    }

    // A byte from the lowest to the highest.
    #[tactic(auto, using(crate::proofs::Reading::tested_byte))]
    #[inline(always)]
    pub(crate) fn byte_between(&mut self, low: usize, high: usize) -> Result<usize, Wrong>
        ensures reads { Reads (byte (between low high)) self.old self.new result }
        ensures value_le_high { IfOk result (λ n. n ≤ high) }
    {
        let at = self.at;
        let value = usize::from(self.byte()?);
        if !(low..=high).contains(&value) {
            return Err(Wrong(at));
        }
        Ok(value)
    }

    // Two bytes, high first.
    #[tactic(auto, using(crate::proofs::Reading::two_bytes))]
    #[inline(always)]
    fn two(&mut self) -> Result<(u8, u8), Wrong>
        ensures { ReadsAs (λ b. b.0 * 2 ^ 8 + b.1) (word any) self.old self.new result }
    {
        let high = self.byte()?;
        let low = self.byte()?;
        Ok((high, low))
    }

    // Two bytes that are a number.
    #[inline(always)]
    pub(crate) fn word(&mut self) -> Result<u16, Wrong>
        ensures { Reads (word any) self.old self.new result }
    {
        let (high, low) = self.two()?;
        Ok(u16::from_be_bytes([high, low]))
    }

    // Two bytes that are a value in two's complement.
    #[tactic(auto, using(crate::proofs::Reading::value_of), unfolding(polyvalues::specs::Values::of_bytes))]
    #[inline(always)]
    pub(crate) fn value(&mut self) -> Result<i16, Wrong>
        ensures { Reads value self.old self.new result }
    {
        let first = self.at;
        let (high, low) = self.two()?;
        let value = of_bytes(high, low);
        if !in_range(i32::from(value)) {
            return Err(Wrong(first));
        }
        Ok(value)
    }

    // So many bytes, whatever they are.
    #[tactic(auto, using(crate::proofs::Reading::part_good, crate::proofs::Reading::part_short))]
    #[inline(always)]
    pub(crate) fn part(&mut self, n: usize) -> Result<(), Wrong>
        ensures { ReadsAs (λ _. take n (left self.old)) (part n) self.old self.new result }
    {
        let left = self.sheet.len().saturating_sub(self.at);
        if left < n {
            return Err(Wrong(self.at + left));
        }
        self.at += n;
        Ok(())
    }
}
