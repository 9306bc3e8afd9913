// A chain that is known to be sound, read one record after another from its head.
ghost use Rattle.std.specs.Prelude.{◌≡◌, true, false, [], ◌∷◌, length, IfSome, Decides, MatchOption, ⊤};
ghost use Rattle.std.specs.List.{AllByRecursion};
ghost use Rattle.pool.specs.Records.{records, Literal, Sound};
ghost use Rattle.pool.specs.Tests.{is_linked};

use crate::soundness;

// The records from `at` on, whose numbers name the signals 1 to `signals`.
#[derive(Clone, Copy)]
pub struct Chain<'a> {
    words: &'a [i32],
    at: usize,
    signals: usize,
    // No Option around `at`: a sound chain that is read to its end stands at 0, as one that was not sound does.
    whole: bool,
    ghost sound: { is_linked at signals words.now (length words.now) at ≡ true },
}

impl<'a> Chain<'a> {
    // The chain at head; an empty one where it is not sound in the words in use.
    pub fn new(signals: usize, pool: &'a [i32], used: usize, head: usize) -> Chain<'a>
        ensures sound { Decides result.whole (Sound signals pool.now used head) }
        ensures records { result.whole ≡ true → records result.words.now result.at ≡ records pool.now head }
        ensures empty { result.whole ≡ false → records result.words.now result.at ≡ [] }
        ensures signals { result.signals ≡ signals }
    {
        let whole = soundness::is_sound(signals, pool, used, head);
        let at = if whole { head } else { 0 };
        Chain {
            words: pool,
            at,
            signals,
            whole,
        }
    }

    // Whether the chain that this was made from is sound.
    pub fn is_sound(&self) -> bool
        ensures { result ≡ self.now.whole }
    {
        self.whole
    }

    // How many signals the records may name.
    pub fn signals(&self) -> usize
        ensures { result ≡ self.now.signals }
    {
        self.signals
    }

    // The numbers of the next record, which is then behind.
    pub fn next(&mut self) -> Option<&'a [i32]>
        ensures records { MatchOption result (records self.old.words.now self.old.at ≡ []) (λ xs. records self.old.words.now self.old.at ≡ xs.now ∷ records self.new.words.now self.new.at) }
        ensures literals { IfSome result (λ xs. AllByRecursion (Literal self.old.signals) xs.now) }
        ensures ended { MatchOption result (records self.new.words.now self.new.at ≡ []) (λ _. ⊤) }
        ensures same { (self.new.signals ≡ self.old.signals) × (self.new.whole ≡ self.old.whole) }
    {
        if self.at == 0 {
            return None;
        }
        let record = soundness::numbers(self.words, self.at);
        self.at = soundness::next(self.words, self.at);
        Some(record)
    }
}
