//! What the machine holds, and what its instructions do there.

ghost use Rattle.std.specs.Prelude.{◌≤◌, length};

use crate::outcome::Finished;
use arithmetic::Overflow;
use bytecode::Argument;
use refusal::Refusal;

/// The machine at an instruction.
#[derive(Drop)]
pub struct Processor<'s, W> {
    /// The words above the base. A slice with the height beside it, since the stack is lent.
    pub words: &'s mut [W],
    /// How many of them are in use.
    pub height: usize,
    /// The accumulator.
    pub word: W,
    /// The place of the instruction.
    pub place: usize,
    /// The place where the machine goes on.
    pub next: usize,
    /// The end of the code.
    pub end: usize,
    ghost within: { height ≤ length words.now },
    ghost on: { next ≤ end },
}

impl<W: Copy> Processor<'_, W> {
    ghost use Rattle.std.specs.Prelude.{◌≡◌, Option, Result, ℕ, ◌+◌, ◌<◌};
    ghost use Rattle.arithmetic.specs.declared.Overflow.{Overflow};
    ghost use Rattle.std.specs.Option.{SomeIff, ok_or};
    ghost use Rattle.std.specs.Result.{MatchResult};
    ghost use Rattle.refusal.specs.declared.Refusal.TheVariants.{StackEmpty};
    ghost use Rattle.machine.specs.Processors.{Did};
    ghost use Rattle.machine.specs.Steps.{pushed, merged, became, peeked, assigned, dropped, branched};

    /// The accumulator at the end of the code, after so many steps; none before it.
    pub(crate) fn finished(&self, steps: usize) -> Option<Finished<W>>
        ensures { SomeIff result (self.now.next ≡ self.now.end) (record { word = self.now.word; steps = steps }) }
    {
        (self.next == self.end).then_some(Finished {
            word: self.word,
            steps,
        })
    }

    // The height once `count` words are taken off.
    fn lowered(&self, count: usize) -> Result<usize, Refusal>
        ensures { MatchResult result (λ h. h + count ≡ self.now.height) (λ why. (self.now.height < count) × (why ≡ StackEmpty self.now.place)) }
    {
        self.height
            .checked_sub(count)
            .ok_or(Refusal::StackEmpty(self.place))
    }

    /// Puts the accumulator on the stack.
    // By its index, since a proof does not know what a write through `get_mut` leaves in the slice.
    pub(crate) fn push(&mut self) -> Result<(), Refusal>
        ensures { Did (pushed self.old.next) self.old self.new result }
    {
        if self.height >= self.words.len() {
            return Err(Refusal::StackFull(self.place));
        }
        self.words[self.height] = self.word;
        self.height += 1;
        Ok(())
    }

    /// Takes the top of the stack off, and puts it and the accumulator together.
    pub(crate) fn merge<F: FnOnce(W, W) -> Result<W, Overflow>>(
        &mut self,
        join: F,
    ) -> Result<(), Refusal>
        requires { F.IsAlwaysCallable join }
        ensures { (f : W → W → Option W) → ((x a : W) (r : Result W Overflow) → F.post join x a r → r ≡ ok_or (f x a) (record {})) → Did (merged f self.old.next) self.old self.new result }
    {
        let top = self.lowered(1)?;
        self.word = join(self.words[top], self.word).map_err(|_| Refusal::Overflow(self.place))?;
        self.height = top;
        Ok(())
    }

    /// The word becomes the accumulator.
    pub(crate) fn load(&mut self, word: W) -> Result<(), Refusal>
        ensures { Did (became word self.old.next) self.old self.new result }
    {
        self.word = word;
        Ok(())
    }

    /// Reads the word that lies `k` below the top.
    pub(crate) fn peek(&mut self, k: u8) -> Result<(), Refusal>
        ensures { Did (peeked k self.old.next) self.old self.new result }
    {
        self.word = self.words[self.lowered(usize::from(k) + 1)?];
        Ok(())
    }

    /// Overwrites the word that lies `k` below the top.
    #[tactic(auto, using(crate::proofs::Held::held_steps))]
    pub(crate) fn assign(&mut self, k: u8) -> Result<(), Refusal>
        ensures { Did (assigned k self.old.next) self.old self.new result }
    {
        let at = self.lowered(usize::from(k) + 1)?;
        self.words[at] = self.word;
        Ok(())
    }

    /// Takes `k` words off.
    #[tactic(auto, using(crate::proofs::Held::held_steps))]
    pub(crate) fn discard(&mut self, k: u8) -> Result<(), Refusal>
        ensures { Did (dropped k self.old.next) self.old self.new result }
    {
        self.height = self.lowered(usize::from(k))?;
        Ok(())
    }

    /// Goes on at its own place plus `k`, if that lies in the code or at its end.
    pub(crate) fn branch(&mut self, k: Argument) -> Result<(), Refusal>
        ensures { Did (branched self.old.end k) self.old self.new result }
    {
        let offset = i32::from(k) as isize;
        let to = self.place.checked_add_signed(offset);
        self.next = to
            .filter(|to| *to <= self.end)
            .ok_or(Refusal::PlaceOutside(self.place))?;
        Ok(())
    }
}
