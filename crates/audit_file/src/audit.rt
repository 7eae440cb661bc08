// What an audit keeps.
ghost use Rattle.std.specs.Prelude.{◌≡◌, [], true, OnOk, OnErr, option_map};
ghost use Rattle.pinpointing_specs.specs.Order.{IsAscending};
ghost use Rattle.audit_file.specs.AuditLists.{justified_sets, repaired_sets, last_justified, last_repaired, follows};
ghost use Rattle.audit_file.specs.AuditLists.{with_justification, with_repair, empty_audit};

use crate::entries::{Justification, Repair};
use axiom_sets::AxiomSet;
use finite_model::Interp;
use refutation_tree::Refutation;
use shq_terms::NoMemory;
use std::alloc::Global;
use std::marker::Model;

/// Sets of axioms from which a query follows, each with a refutation, and sets without which it does not follow, each
/// with an interpretation. Each list is in the order of sets, and no set stands in it twice.
#[derive(Drop)]
pub struct Audit {
    justifications: Vec<Justification>,
    repairs: Vec<Repair>,
}

impl Model for Audit {
    ghost use Rattle.std.specs.Coded.{codes};
    ghost use Rattle.axiom_sets.specs.Sets.{limited_code};
    ghost use Rattle.audit_file.specs.AuditLists.{AuditLists, IsOrdered};

    ghost Value = { AuditLists };

    ghost coded = { Prim.hlevel (codes, limited_code) };

    ghost view = { λ a. record { justifications = a.justifications.items; repairs = a.repairs.items } };

    ghost invariant = { λ a. IsOrdered a.justifications.items a.repairs.items };
}

impl Audit {
    /// An audit that lists nothing.
    pub fn new(alloc: Global) -> Audit
        ensures { result ≡ empty_audit }
    {
        Audit {
            justifications: Vec::new(alloc),
            repairs: Vec::new(alloc),
        }
    }

    /// Puts a justification last, or changes nothing. Its set comes after that of the last one.
    pub fn put_justification(
        &mut self,
        set: AxiomSet,
        refutation: Refutation,
    ) -> Result<(), NoMemory>
        requires { follows (last_justified self.old) set ≡ true }
        ensures put { OnOk result (self.new ≡ with_justification set refutation self.old) }
        ensures unchanged { OnErr result (self.new ≡ self.old) }
    {
        self.justifications.push(Justification { set, refutation })?;
        Ok(())
    }

    /// Puts a repair last, or changes nothing. Its set comes after that of the last one.
    pub fn put_repair(&mut self, set: AxiomSet, model: Interp) -> Result<(), NoMemory>
        requires { follows (last_repaired self.old) set ≡ true }
        ensures put { OnOk result (self.new ≡ with_repair set model self.old) }
        ensures unchanged { OnErr result (self.new ≡ self.old) }
    {
        self.repairs.push(Repair { set, model })?;
        Ok(())
    }

    /// The justifications, in the order of their sets.
    pub fn justifications(&self) -> &[Justification]
        ensures list { result.now ≡ self.now.justifications }
        ensures order { IsAscending (justified_sets self.now.justifications) }
    {
        &self.justifications
    }

    /// The repairs, in the order of their sets.
    pub fn repairs(&self) -> &[Repair]
        ensures list { result.now ≡ self.now.repairs }
        ensures order { IsAscending (repaired_sets self.now.repairs) }
    {
        &self.repairs
    }

    /// The set of the last justification.
    pub(crate) fn last_justified(&self) -> Option<&AxiomSet>
        ensures { option_map (λ s. s.now) result ≡ last_justified self.now }
    {
        match self.justifications.last() {
            Some(justification) => Some(&justification.set),
            None => None,
        }
    }

    /// The set of the last repair.
    pub(crate) fn last_repaired(&self) -> Option<&AxiomSet>
        ensures { option_map (λ s. s.now) result ≡ last_repaired self.now }
    {
        match self.repairs.last() {
            Some(repair) => Some(&repair.set),
            None => None,
        }
    }
}
