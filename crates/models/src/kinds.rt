// Kinds of one sort, held as a delay model.
ghost use Rattle.std.specs.Prelude.{◌≡◌, ℕ, ◌<◌, ◌≤◌, [], ◌∷◌, ◌++◌, map, None, Some, MatchOption, IfOk, slice_get, vec_len, vec_capacity};
ghost use Rattle.std.proofs.Common.{arith};
ghost use Rattle.units.specs.Refusals.{Outcome};
ghost use Rattle.units.specs.Steps.{last_step};
ghost use Rattle.models.specs.Faults.{refusal_of, full_row};
ghost use Rattle.models.specs.Kinds.{kinds_meaning};
ghost use Rattle.models.specs.Meaning.{LawfulKind, max_kinds};
ghost use Rattle.models.specs.Meanings.{given_kinds_lawful};

use crate::delay_model::{DelayModel, MAX_KINDS};
use crate::faults::ModelFault;
use std::alloc::{AllocError, Global};
use units::steps::LAST_STEP;

// A sort of kind: what a kind is given by, the figures at each step that follow, and the rule that they keep.
pub trait Kind: Drop {
    ghost Given: { Type 0 };

    ghost given: { Self → Given };

    ghost figures: { Given → ℕ → ℕ × ℕ };

    ghost Rule: { Given → ℕ → ℕ × ℕ → Type 0 };

    // The delay and the output step at a step.
    fn figures(&self, step: u8) -> (u32, u8)
        requires { step ≤ last_step }
        ensures { result ≡ figures (given self.now) step };

    // Ranges, and no figure that falls as the step rises.
    ghost lawful: { (x : Self) → LawfulKind (figures (given x)) };

    ghost follows_rule: { (x : Self) (step : ℕ) → step ≤ last_step → Rule (given x) step (figures (given x) step) };
}

// A model of at most 32 kinds, with room for all of them from the start.
#[derive(Drop)]
pub struct Kinds<K> {
    held: Vec<K>,
    ghost few: { vec_len held ≤ max_kinds },
    ghost room: { max_kinds ≤ vec_capacity held },
}

impl<K: Kind> Kinds<K> {
    // A model of no kinds.
    pub fn new(heap: Global) -> Result<Kinds<K>, AllocError>
        ensures { IfOk result (λ kinds. kinds.held.items ≡ []) }
    {
        let held = Vec::with_capacity(heap, MAX_KINDS)?;
        Ok(Kinds { held })
    }

    // The number that the next kind gets.
    pub(crate) fn next_number(&self) -> Result<u8, ModelFault>
        ensures { Outcome refusal_of (full_row (vec_len self.now.held) ∷ []) result
            (λ number. (number ≡ vec_len self.now.held) × (number < max_kinds)) (Unit {0}) }
    {
        if self.held.len() >= MAX_KINDS {
            return Err(ModelFault::KindsFull);
        }
        Ok(self.held.len() as u8)
    }

    pub(crate) fn push(&mut self, kind: K)
        requires { vec_len self.old.held < max_kinds }
        ensures { self.new.held.items ≡ self.old.held.items ++ kind ∷ [] }
    {
        self.held.push_reserved(kind);
    }

    // The kind of a number, if it is held.
    pub(crate) fn get(&self, kind: u8) -> Option<&K>
        ensures { MatchOption result (slice_get (map K.given self.now.held.items) kind ≡ None) (λ held. slice_get (map K.given self.now.held.items) kind ≡ Some (K.given held.now)) }
    {
        self.held.get(usize::from(kind))
    }
}

impl<K: Kind> DelayModel for Kinds<K> {
    ghost meaning = { λ kinds. kinds_meaning (map K.figures (map K.given kinds.held.items)) };

    ghost lawful = { λ x. given_kinds_lawful K.given K.figures K.lawful x.held.items (omega (arith, x.few, x.held.ok.0)) };

    fn count(&self) -> u8 {
        self.held.len() as u8
    }

    fn figures(&self, kind: u8, step: u8) -> (u32, u8)
        ensures delay { result.0 ≡ (kinds_meaning (map K.figures (map K.given self.now.held.items))).delay kind step }
        ensures output_step { result.1 ≡ (kinds_meaning (map K.figures (map K.given self.now.held.items))).output_step kind step }
        ensures rule { (given : K.Given) → slice_get (map K.given self.now.held.items) kind ≡ Some given → step ≤ last_step → K.Rule given step result }
    {
        match self.get(kind) {
            Some(held) if step <= LAST_STEP => held.figures(step),
            // A kind not held or a step past the last: the interface promises 0 and 0.
            _ => (0, 0),
        }
    }
}
