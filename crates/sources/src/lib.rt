// Lists of sources: a list of periods, one of weights and one of phases, and the tests that all lists pass before they are used.
// Every function is proved. The public ones are inner steps of the crates above.
#![tactic(auto)]

ghost use Rattle.std.specs.Prelude.{◌≡◌, ◌<◌, Some, length, min};
ghost use Rattle.std.specs.List.{slice_get, reduce};
ghost use Rattle.scope.specs.Run.{ceiling};
ghost use Rattle.scope.specs.Refusal.{◌and_then◌, complaint, weight_tests};
ghost use Rattle.scope.specs.Inner.{verdict};
ghost use Rattle.sources.specs.Entry.{entries_of, entry_tests, length_tests, list_tests, source_lists_tests};
ghost use Rattle.sources.specs.Inner.{granted};
ghost use Rattle.sources.specs.Lists.{OneLength, periods_of};

use scope::{CEILING, Reason, Refusal, Source};
use std::marker::Model;

// An entry of a list: a source and its weight.
#[derive(Clone, Copy, PartialEq, Eq)]
pub struct Entry {
    pub source: Source,
    pub weight: u32,
}

// A list of sources, which stands in three lists of one length: contracts see the list of its entries. That the lists are of one
// length is a fact of the type. They stay three, and are not one list of entries, since so C lends them.
#[derive(Drop)]
pub struct Sources<'a> {
    periods: &'a [u32],
    weights: &'a [u32],
    phases: &'a [u32],
}

impl<'a> Model for Sources<'a> {
    ghost use Rattle.std.specs.Prelude.{List};
    ghost use Rattle.sources.specs.declared.Entry.{Entry};
    ghost use Rattle.sources.specs.Entry.{entries_of};
    ghost use Rattle.sources.specs.Lists.{OneLength};

    ghost Value = { List Entry };

    ghost view = { λ s. entries_of s.periods.now s.weights.now s.phases.now };

    ghost invariant = { λ s. OneLength s.periods.now s.weights.now s.phases.now };
}

// What the table says of a weight.
fn judge_weight(weight: u32) -> Result<(), Refusal>
    ensures { result ≡ verdict (complaint (weight_tests ceiling weight)) }
{
    Reason::Weight.when(weight == 0)?;
    Reason::Weight.when(u32::from(CEILING) < weight)
}

impl Entry {
    // What the table says of an entry: of its period first, then of its weight, then of its phase. (By `and`: as in scope's `judge_source`.)
    fn judge(self) -> Result<(), Refusal>
        ensures { result ≡ verdict (complaint (entry_tests ceiling self)) }
    {
        scope::judge_period(self.source.period)
            .and(judge_weight(self.weight))
            .and(scope::judge_phase(self.source))
    }
}

impl<'a> Sources<'a> {
    // Inner step. The list of sources that stands in three lists of one length.
    pub fn new(periods: &'a [u32], weights: &'a [u32], phases: &'a [u32]) -> Sources<'a>
        requires { OneLength periods.now weights.now phases.now }
        ensures { result ≡ entries_of periods.now weights.now phases.now }
    {
        Sources {
            periods,
            weights,
            phases,
        }
    }

    // Inner step. The same of any three lists, or what the table says where they are not of one length. One exit for both tests, so that
    // the refusal stands there once; each test has a name, by which the proof goes.
    pub fn try_new(
        periods: &'a [u32],
        weights: &'a [u32],
        phases: &'a [u32],
    ) -> Result<Sources<'a>, Refusal>
        ensures { result ≡ granted (complaint (length_tests periods.now weights.now and_then length_tests periods.now phases.now)) (entries_of periods.now weights.now phases.now) }
    {
        let weights_differ = periods.len() != weights.len();
        let phases_differ = periods.len() != phases.len();
        if weights_differ || phases_differ {
            return Err(Reason::Lists.alone());
        }
        Ok(Sources::new(periods, weights, phases))
    }

    // Inner step. How many sources there are.
    pub fn len(&self) -> usize
        ensures { result ≡ length self.now }
    {
        self.periods.len()
    }

    // Inner step. The entry with so many before it. No iterator: three slices have none in std, and one of its own, with its laws, would
    // serve three loops.
    pub fn entry(&self, k: usize) -> Entry
        requires { k < length self.now }
        ensures { slice_get self.now k ≡ Some result }
    {
        let periods = self.periods;
        let weights = self.weights;
        let phases = self.phases;
        Entry {
            source: Source {
                period: periods[k],
                phase: phases[k],
            },
            weight: weights[k],
        }
    }

    // Inner step. The shortest period, if there is a source.
    pub fn shortest(&self) -> Option<u32>
        ensures { result ≡ reduce min (periods_of self.now) }
    {
        self.periods.iter().copied().min()
    }

    // Inner step. The first fault of the sources, in the order of the list, with the place of its source, counted from 1: a period
    // comes before the weight beside it, and that before the phase.
    pub fn judge(&self) -> Result<(), Refusal>
        ensures { result ≡ verdict (complaint (list_tests ceiling 1 self.now)) }
    {
        for k in 0..self.len() {
            scope::at_source(k as u64 + 1, self.entry(k).judge())?;
        }
        Ok(())
    }
}

// Inner step. Three lists of sources as one, or what the table says of them: of their lengths first, then of each source.
pub fn judge_lists<'a>(
    periods: &'a [u32],
    weights: &'a [u32],
    phases: &'a [u32],
) -> Result<Sources<'a>, Refusal>
    ensures { result ≡ granted (complaint (source_lists_tests ceiling periods.now weights.now phases.now)) (entries_of periods.now weights.now phases.now) }
{
    let sources = Sources::try_new(periods, weights, phases)?;
    sources.judge()?;
    Ok(sources)
}
