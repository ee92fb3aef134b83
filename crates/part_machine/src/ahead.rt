//! What is known of the entries that are reserved before they are applied.
ghost use Rattle.std.specs.Prelude.{◌≡◌};
ghost use Rattle.std.specs.Option.{option_copied};
ghost use Rattle.part_machine.specs.Ahead.{plan_begun};

use crate::chains::chain_of;
use crate::machine::Machine;
use crate::plan::Plan;
use crate::primes::more_behind;
use kv_part::KeyStore;
use part_keys::PrimeRec;
use part_rules::Applied;

// The record of the chain that a plan begins.
fn begun_in(plan: &Plan) -> Option<&PrimeRec>
    ensures { option_copied result ≡ plan_begun plan.now }
{
    let Applied::Begun(v) = &plan.answer else {
        return None;
    };
    let Some(turn) = &plan.turn else {
        return None;
    };
    if turn.at != *v {
        return None;
    }
    turn.chain.as_ref()
}

impl<S: KeyStore> Machine<S> {
    ghost use Rattle.std.specs.Prelude.{◌≡◌, ℕ, nat_lt, length, List, Option};
    ghost use Rattle.std.specs.FinMap.{contains_key};
    ghost use Rattle.std.specs.List.{slice_get};
    ghost use Rattle.std.specs.Option.{option_copied, option_and_then};
    ghost use Rattle.part_keys.specs.declared.chain.PrimeRec.{PrimeRec as Rec};
    ghost use Rattle.part_keys.specs.declared.entry.PartEntry.{PartEntry as Entry};
    ghost use Rattle.part_rules.specs.Part.{Part};
    ghost use Rattle.part_rules.specs.View.{at_once, chains_behind};
    ghost use Rattle.part_machine.specs.Ahead.{answers, beginnings};
    ghost use Rattle.part_machine.specs.Machine.{IsMachine};

    /// What the entry that is reserved at this place will be answered, the first at 0.
    pub fn answer(&self, place: usize) -> Option<&Applied>
        ensures { (p : Part) (entries : List (ℕ × Entry)) → IsMachine S.meaning S.has_place p entries self.now → option_copied result ≡ slice_get (answers self.now.setting.parts p entries) place }
    {
        let Some(plan) = self.plans.get(place) else {
            return None;
        };
        Some(&plan.answer)
    }

    /// The record of the chain that begins with the entry that is reserved at this place, the first at 0; none where none does.
    pub fn begun(&self, place: usize) -> Option<&PrimeRec>
        ensures { (p : Part) (entries : List (ℕ × Entry)) → IsMachine S.meaning S.has_place p entries self.now → option_copied result ≡ option_and_then (λ (begun : Option Rec). begun) (slice_get (beginnings self.now.setting.parts p entries) place) }
    {
        let Some(plan) = self.plans.get(place) else {
            return None;
        };
        begun_in(plan)
    }

    /// Whether more chains stand behind a number than are taken up at once.
    pub fn more_primes(&self, after: u64) -> bool
        ensures { (p : Part) (entries : List (ℕ × Entry)) → IsMachine S.meaning S.has_place p entries self.now → result ≡ nat_lt at_once (length (chains_behind after p)) }
    {
        more_behind(&self.chains, after)
    }

    /// Whether the chain of that number stands.
    pub fn stands(&self, v: u64) -> bool
        ensures { (p : Part) (entries : List (ℕ × Entry)) → IsMachine S.meaning S.has_place p entries self.now → result ≡ contains_key p.chains v }
    {
        let Some(_) = chain_of(&self.chains, v) else {
            return false;
        };
        true
    }
}
