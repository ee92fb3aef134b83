//! The greatest terms that were seen.
ghost use Rattle.std.specs.Prelude.{◌≡◌, true, is_some};
ghost use Rattle.std.specs.FinMap as map;
ghost use Rattle.term_guard.specs.Terms.{verdict_by, greater};

use crate::verdict::Verdict;
use lists::NoMemory;
use std::alloc::Global;
use std::collections::BTreeMap;
use std::marker::Model;

/// Of each part that has a row the greatest term that was seen.
#[derive(Drop)]
pub struct Guard {
    rows: BTreeMap<u32, u64>,
}

impl Model for Guard {
    ghost use Rattle.std.specs.FinMap as map;
    ghost use Rattle.std.specs.Prelude.{ℕ};
    ghost use Rattle.std.specs.Coded.{coded_ℕ};
    ghost use Rattle.std.specs.Ordering.{nat_cmp};

    ghost Value = { map.FinMap nat_cmp ℕ };

    ghost coded = { map.code coded_ℕ coded_ℕ };

    ghost view = { λ a. map.from_entries a.rows.entries };
}

impl Guard {
    ghost use Rattle.std.specs.Prelude.{◌≡◌, true, is_some, OnOk, OnErr};
    ghost use Rattle.std.specs.FinMap as map;
    ghost use Rattle.maps.specs.Maps.{altered};
    ghost use Rattle.term_guard.specs.Terms.{verdict, greater, with_row};

    /// No part has a row.
    pub fn new(alloc: Global) -> Self
        ensures { result ≡ map.empty }
    {
        Guard {
            rows: BTreeMap::new(alloc),
        }
    }

    /// Whether that term of that part may act.
    pub fn check(&self, part: u32, term: u64) -> Verdict
        ensures { result ≡ verdict self.now part term }
    {
        match self.rows.get(&part) {
            Some(kept) => verdict_by(*kept, term),
            None => verdict_by(0, term),
        }
    }

    /// Keeps the greater term of a part that has a row.
    pub fn raise(&mut self, part: u32, term: u64)
        requires { is_some (map.get self.old part) ≡ true }
        ensures { self.new ≡ altered self.old part (greater term) }
    {
        let Some(kept) = self.rows.get_mut(&part) else {
            return;
        };
        *kept = greater(term, *kept);
    }

    /// The part has a row. Refused for want of memory alone.
    pub fn reserve(&mut self, part: u32) -> Result<(), NoMemory>
        ensures ok { OnOk result (self.new ≡ with_row self.old part) }
        ensures err { OnErr result (self.new ≡ self.old) }
    {
        if self.rows.contains_key(&part) {
            return Ok(());
        }
        self.rows.insert(part, 0)?;
        Ok(())
    }
}

/// What is said of a term by the kept one.
fn verdict_by(kept: u64, term: u64) -> Verdict
    ensures { result ≡ verdict_by kept term }
{
    if term < kept {
        Verdict::Stale(kept)
    } else {
        Verdict::Fresh
    }
}

/// The greater of a term and the kept one.
fn greater(term: u64, kept: u64) -> u64
    ensures { result ≡ greater term kept }
{
    if kept < term { term } else { kept }
}
