// Why an individual is an instance of a class expression.
ghost use Rattle.std.specs.Prelude.{◌≡◌};

use axiom_sets::AxiomSet;
use std::marker::Model;

/// An instance, and all justifications of its being one.
#[derive(Drop)]
pub(crate) struct Reasons {
    individual: u32,
    justifications: Vec<AxiomSet>,
}

impl Model for Reasons {
    ghost use Rattle.std.specs.Coded.{codes};
    ghost use Rattle.axiom_sets.specs.Sets.{limited_code};
    ghost use Rattle.individual_jobs.specs.ReasonLists.{ReasonLists};

    ghost Value = { ReasonLists };

    ghost coded = { Prim.hlevel (codes, limited_code) };

    ghost view = { λ r. record { individual = r.individual; justifications = r.justifications.items } };
}

impl Reasons {
    ghost use Rattle.individual_jobs.specs.ReasonLists.{ReasonLists};

    /// These justifications of this individual's being an instance.
    pub(crate) fn new(individual: u32, justifications: Vec<AxiomSet>) -> Reasons
        ensures { result ≡ record { individual = individual; justifications = justifications.items } }
    {
        Reasons {
            individual,
            justifications,
        }
    }

    /// The instance.
    pub(crate) fn individual(&self) -> u32
        ensures { result ≡ self.now.individual }
    {
        self.individual
    }

    /// The justifications, in the order of sets.
    pub(crate) fn justifications(&self) -> &[AxiomSet]
        ensures { result.now ≡ self.now.justifications }
    {
        &self.justifications
    }
}
