//! How the statements of a client ended.
use crate::ending::Ending;
use lists::NoMemory;
use std::alloc::Global;
use std::collections::BTreeMap;
use std::marker::Model;

/// By line, how its statement ended, with a place for one that hasn't ended; contracts see it as a finite map.
#[derive(Drop)]
pub struct Lines {
    kept: BTreeMap<u64, Option<Ending>>,
}

impl Model for Lines {
    ghost use Rattle.std.specs.Coded.{coded_ℕ, coded_option};
    ghost use Rattle.std.specs.FinMap as map;
    ghost use Rattle.std.specs.Ordering.{nat_cmp};
    ghost use Rattle.std.specs.Prelude.{Option};
    ghost use Rattle.statement_run.specs.declared.ending.Ending.{Ending};
    ghost use Rattle.statement_run.specs.contracts.ending.Ending as ending;

    ghost Value = { map.FinMap nat_cmp (Option Ending) };

    ghost coded = { map.code coded_ℕ (coded_option ending.the_row.coded) };

    ghost view = { λ a. map.from_entries a.kept.entries };
}

#[tactic(auto, using(maps::proofs::Made::get_made, maps::proofs::Keys::nat_keys))]
impl Lines {
    ghost use Rattle.std.specs.FinMap as map;
    ghost use Rattle.std.specs.Option.{option_copied, option_and_then};
    ghost use Rattle.std.specs.Prelude.{◌≡◌, None, Some, OnOk, OnErr};
    ghost use Rattle.maps.specs.Maps.{altered};

    /// No statement. It takes no memory until it grows.
    pub(crate) fn new(alloc: Global) -> Lines
        ensures { result ≡ map.empty }
    {
        Lines {
            kept: BTreeMap::new(alloc),
        }
    }

    /// How the statement of this line ended, if it has.
    pub(crate) fn answer(&self, line: u64) -> Option<&Ending>
        ensures { option_copied result ≡ option_and_then (λ x. x) (map.get self.now line) }
    {
        let Some(place) = self.kept.get(&line) else {
            return None;
        };
        let Some(answer) = place else {
            return None;
        };
        Some(answer)
    }

    /// A place for the statement of this line. Refused for want of memory alone, and then all is as it was.
    pub(crate) fn hold(&mut self, line: u64) -> Result<(), NoMemory>
        ensures ok { OnOk result (self.new ≡ map.insert self.old line None) }
        ensures err { OnErr result (self.new ≡ self.old) }
    {
        self.kept.insert(line, None)?;
        Ok(())
    }

    /// How the statement of this line ended, in its place.
    pub(crate) fn fill(&mut self, line: u64, answer: Ending)
        ensures { self.new ≡ altered self.old line (λ _. Some answer) }
    {
        let Some(place) = self.kept.get_mut(&line) else {
            return;
        };
        *place = Some(answer);
    }
}
