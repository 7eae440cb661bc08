// The rules, over one refutation of one query.
ghost use Rattle.std.specs.Prelude.{◌≡◌, ℕ, ◌≤◌, ◌<◌, ◌==◌, true, IsTrue, IfOk, length};
ghost use Rattle.shq_terms.specs.Concept.{bottom};
ghost use Rattle.calculus_specs.specs.Normal.{normal_form, negated_form};
ghost use Rattle.calculus_specs.specs.Shape.{IsTable, has_parts_below, is_normal};
ghost use Rattle.calculus_specs.specs.Tree.{tree_of};
ghost use Rattle.shq_nnf.specs.Counts.{has_counts_within};
ghost use Rattle.shq_nnf.specs.Shapes.{form_of, concept_of};
ghost use Rattle.shq_nnf.specs.Numbers.{Extends, IsNumber};
ghost use Rattle.axiom_sets.specs.Sets.{IsWithin, member_list};
ghost use Rattle.row_cache.specs.Rows.{AreInLimit};
ghost use Rattle.row_cache.specs.Cache.{IsNamedAxiom};
ghost use Rattle.calculus_specs.specs.Valid.{concept_at};
ghost use Rattle.refutation_tree.specs.RuleLine.{line_of};
ghost use Rattle.refutation_rules.specs.Outcomes.{IsBranch};
ghost use Rattle.refutation_rules.specs.RefutationContext.{theory, IsOutcome, IsSameButTable, StandsFor, IsHeld};
ghost use Rattle.refutation_rules.specs.RefutationContext.{IsUsableRow, IsUsableRange};
ghost use Rattle.refutation_rules.specs.Tests.{node_asked, is_in, has_number};

use crate::numbering::{number_concepts, roles_of};
use crate::{NoMemory, Outcome};
use axiom_sets::AxiomSet;
use branch_facts::BranchFacts;
use refutation_tree::{Line, Refutation};
use role_box::RoleBox;
use row_cache::{CachedRange, CachedRow, RowCache};
use shq_nnf::{Concepts, Shape};
use shq_terms::{Concept, Numbered, On, Ontology, Query};
use std::alloc::Global;
use std::marker::Model;

/// The rules for the lines of one refutation: how many individuals there are, the axioms that it names, the roles by
/// these, the query, and the numbers of its concepts in a table of their own, which keeps the rows that lines use.
#[derive(Drop)]
pub struct Rules<'a> {
    pub(crate) alloc: Global,
    refutation: &'a Refutation,
    query: &'a Query,
    individuals: u32,
    roles: RoleBox,
    rows: RowCache<'a>,
    numbers: Vec<u32>,
    sub: u32,
    not_sup: u32,
    bottom: u32,
}

impl<'a> Model for Rules<'a> {
    ghost use Rattle.std.specs.Coded.{codes};
    ghost use Rattle.shq_terms.specs.Code.{concept_code};
    ghost use Rattle.refutation_rules.specs.RefutationContext.{RefutationContext, IsRefutationContext};

    ghost Value = { RefutationContext };

    ghost coded = { Prim.hlevel (codes, concept_code) };

    ghost view = { λ r. record {
      individuals = r.individuals;
      axioms = r.rows.axioms;
      named = r.rows.named;
      query = r.query.now;
      shapes = r.refutation.now.shapes;
      table = r.rows.table;
    } };

    ghost invariant = { λ r. IsRefutationContext r.individuals r.rows r.refutation.now.shapes r.query.now r.roles
        r.numbers.items r.sub r.not_sup r.bottom };
}

impl<'a> Rules<'a> {
    ghost use Rattle.refutation_rules.specs.RefutationContext.{RefutationContext};

    /// The rules for a refutation of the query that names axioms of the ontology.
    ///
    /// # Errors
    ///
    /// Out of memory.
    pub fn new(
        alloc: Global,
        ontology: &'a Ontology,
        query: &'a Query,
        refutation: &'a Refutation,
    ) -> Result<Rules<'a>, NoMemory>
        requires numbers { IsWithin (length ontology.now.axioms) refutation.now.axioms.members }
        requires within { AreInLimit ontology.now.axioms }
        requires sub { IsTrue (has_counts_within 100 query.now.sub) }
        requires sup { IsTrue (has_counts_within 100 query.now.sup) }
        ensures individuals { IfOk result (λ f. f.individuals ≡ length ontology.entry.now.individuals) }
        ensures axioms { IfOk result (λ f. f.axioms ≡ ontology.entry.now.axioms) }
        ensures named { IfOk result (λ f. f.named ≡ member_list refutation.entry.now.axioms) }
        ensures query { IfOk result (λ f. f.query ≡ query.entry.now) }
        ensures shapes { IfOk result (λ f. f.shapes ≡ refutation.entry.now.shapes) }
    {
        let mut concepts = Concepts::new(alloc)?;
        let numbers = number_concepts(alloc, &mut concepts, refutation)?;
        let sub = concepts.intern(&query.sub)?;
        let not_sup = concepts.intern_complement(&query.sup)?;
        let bottom = concepts.put(Shape::Bottom)?;
        let named = refutation.axioms_used();
        let roles = roles_of(alloc, ontology, named)?;
        let rows = RowCache::new(alloc, ontology, named, concepts);
        Ok(Rules {
            alloc,
            refutation,
            query,
            individuals: ontology.individual_count(),
            roles,
            rows,
            numbers,
            sub,
            not_sup,
            bottom,
        })
    }

    /// What the line leaves of its branch. `None` where its premises do not hold there.
    ///
    /// # Errors
    ///
    /// Out of memory. The table keeps its numbers, and may have gained some.
    pub fn outcome(
        &mut self,
        branch: &BranchFacts,
        line: &Line,
    ) -> Result<Option<Outcome>, NoMemory>
        requires { IsBranch (length self.old.table) branch.now }
        ensures outcome { IfOk result (IsOutcome self.new branch.now (line_of line.now)) }
        ensures kept { Extends self.old.table self.new.table }
        ensures same { IsSameButTable self.old self.new }
        ensures table { IsTable self.new.table }
    {
        let outcome = self.left_by(branch, line);
        let _count = self.len();
        outcome
    }

    // The same, by the kind of the line.
    fn left_by(&mut self, branch: &BranchFacts, line: &Line) -> Result<Option<Outcome>, NoMemory>
        requires { IsBranch (length self.old.table) branch.now }
        ensures outcome { IfOk result (λ o. IsOutcome self.new branch.now (line_of line.now) o) }
        ensures kept { Extends self.old.table self.new.table }
        ensures same { IsSameButTable self.old self.new }
    {
        match line {
            Line::Start => Ok(self.start(branch)),
            Line::And(node, concept) => self.and(branch, *node, *concept),
            Line::Or(node, concept) => self.or(branch, *node, *concept),
            Line::All(node, end, concept) => self.all(branch, *node, *end, *concept),
            Line::Carry(node, end, role, concept) => {
                self.carry(branch, *node, *end, *role, *concept)
            }
            Line::Row(node, axiom, part, positions) => {
                self.row(branch, *node, *axiom, *part, positions.items())
            }
            Line::Range(node, end, axiom) => self.range(branch, *node, *end, *axiom),
            Line::SomeOf(node, first, concept) => Ok(self.some(branch, *node, *first, *concept)),
            Line::Least(node, first, concept) => Ok(self.least(branch, *node, *first, *concept)),
            Line::Choose(node, concept) => self.choose(branch, *node, *concept),
            Line::Pair(first, second) => self.pair(branch, *first, *second),
            Line::Bottom(node) => Ok(self.nothing(branch, *node)),
            Line::Clash(node, concept) => self.clash(branch, *node, *concept),
            Line::Most(node, concept, ends) => {
                Ok(self.most(branch, *node, *concept, ends.items()))
            }
            Line::Fact(axiom, place) => self.fact(branch, *axiom, *place),
            Line::Differ(first, second) => Ok(self.differ(branch, *first, *second)),
        }
    }

    // The number of a concept of the refutation in the table.
    pub(crate) fn number(&self, concept: u32) -> Option<u32>
        ensures { StandsFor self.now.table (concept_at self.now.shapes concept) result }
    {
        if concept == 0 {
            return None;
        }
        self.numbers.get(concept as usize).copied()
    }

    // The shape of a number.
    pub(crate) fn shape(&self, number: u32) -> Shape<'_>
        requires { number < length self.now.table }
        ensures tree { tree_of self.now.table number ≡ concept_of self.now.table result }
        ensures parts { has_parts_below (length self.now.table) (form_of result) ≡ true }
        ensures normal { is_normal self.now.table (form_of result) ≡ true }
    {
        self.rows.concepts().shape(number)
    }

    // The shape of a concept of the refutation that a known node has.
    pub(crate) fn shape_in_label(
        &self,
        branch: &BranchFacts,
        node: u32,
        concept: u32,
    ) -> Option<Shape<'_>>
        requires { IsBranch (length self.now.table) branch.now }
        ensures { IsHeld self.now branch.now node concept result }
    {
        let Some(number) = self.number(concept) else {
            return None
        };
        if !self.is_in(branch, node, number) {
            return None;
        }
        Some(self.shape(number))
    }

    // Whether the node is known and has the concept of this number.
    pub(crate) fn is_in(&self, branch: &BranchFacts, node: u32, number: u32) -> bool
        requires branch { IsBranch (length self.now.table) branch.now }
        requires listed { number < length self.now.table }
        ensures { result ≡ is_in self.now branch.now node number }
    {
        branch.knows(node) && self.has(branch, node, number)
    }

    // Whether the node has the concept of this number.
    pub(crate) fn has(&self, branch: &BranchFacts, node: u32, number: u32) -> bool
        requires branch { IsBranch (length self.now.table) branch.now }
        requires listed { number < length self.now.table }
        ensures { result ≡ has_number self.now branch.now node number }
    {
        let _count = self.len();
        branch.has(node, number)
    }

    /// How many concepts the table has, from number 0 on: a branch is to know none but these.
    pub fn len(&self) -> u32
        ensures count { result ≡ length self.now.table }
        ensures table { IsTable self.now.table }
    {
        self.rows.concepts().len()
    }

    // The numbers of the query's subclass and of the complement of its superclass.
    pub(crate) fn query_numbers(&self) -> (u32, u32)
        ensures sub { IsNumber self.now.table result.0 (normal_form self.now.query.sub) }
        ensures not_sup { IsNumber self.now.table result.1 (negated_form self.now.query.sup) }
    {
        (self.sub, self.not_sup)
    }

    // How many individuals there are. The first nodes are one for each of them, and one more.
    pub(crate) fn individual_count(&self) -> u32
        ensures count { result ≡ self.now.individuals }
        ensures few { result ≤ 20000 }
    {
        self.individuals
    }

    // The node in question, where it is a first node: that of the individual that the query speaks of, or the last one.
    pub(crate) fn asked_node(&self) -> Option<u32>
        ensures { result ≡ node_asked self.now }
    {
        match self.query.on {
            On::Any => Some(self.individuals),
            On::Individual(individual) => {
                if individual < self.individuals {
                    Some(individual)
                } else {
                    None
                }
            }
        }
    }

    pub(crate) fn bottom(&self) -> u32
        ensures { IsNumber self.now.table result bottom }
    {
        self.bottom
    }

    pub(crate) fn below(&self, lower: u32, upper: u32) -> bool
        ensures { result ≡ (theory self.now).below lower upper }
    {
        self.roles.below(lower, upper)
    }

    pub(crate) fn is_transitive(&self, role: u32) -> bool
        ensures { result ≡ (theory self.now).is_transitive role }
    {
        self.roles.is_transitive(role)
    }

    // From this number on each role is below itself alone.
    pub(crate) fn role_bound(&self) -> u32
        ensures { (r s : ℕ) → result ≤ r → (theory self.now).below r s ≡ (r == s) }
    {
        self.roles.role_bound()
    }

    // The number of a shape that is normal and has its parts in the table.
    pub(crate) fn put(&mut self, shape: Shape<'_>) -> Result<u32, NoMemory>
        requires parts { IsTrue (has_parts_below (length self.old.table) (form_of shape)) }
        requires normal { IsTrue (is_normal self.old.table (form_of shape)) }
        ensures number { IfOk result (λ n. IsNumber self.new.table n (concept_of self.old.table shape.entry)) }
        ensures kept { Extends self.old.table self.new.table }
        ensures same { IsSameButTable self.old self.new }
        ensures table { IsTable self.new.table }
    {
        self.rows.put(shape)
    }

    // The number of the complement of a number.
    pub(crate) fn negated(&mut self, number: u32) -> Result<u32, NoMemory>
        requires { number < length self.old.table }
        ensures number { IfOk result (λ n. IsNumber self.new.table n (negated_form (tree_of self.old.table number))) }
        ensures kept { Extends self.old.table self.new.table }
        ensures same { IsSameButTable self.old self.new }
    {
        self.rows.negated(number)
    }

    // The axiom of a number, from 1, if it is named.
    pub(crate) fn named_axiom(&self, number: u32) -> Option<&'a Numbered>
        ensures { IsNamedAxiom self.now.axioms self.now.named number result }
    {
        self.rows.named_axiom(number)
    }

    // The number of the normal form of a class expression.
    pub(crate) fn intern(&mut self, concept: &Concept) -> Result<u32, NoMemory>
        requires { IsTrue (has_counts_within 100 concept.now) }
        ensures number { IfOk result (λ n. IsNumber self.new.table n (normal_form concept.now)) }
        ensures kept { Extends self.old.table self.new.table }
        ensures same { IsSameButTable self.old self.new }
    {
        self.rows.intern(concept)
    }

    // The row of a part of an axiom for the conjuncts at these positions.
    pub(crate) fn inclusion_row(
        &mut self,
        axiom: u32,
        part: u32,
        positions: &[u32],
    ) -> Result<Option<CachedRow>, NoMemory>
        ensures row { IfOk result (IsUsableRow self.new «axiom» part positions.now) }
        ensures kept { Extends self.old.table self.new.table }
        ensures same { IsSameButTable self.old self.new }
        ensures table { IsTable self.new.table }
    {
        self.rows.inclusion_row(axiom, part, positions)
    }

    // The row of a range axiom.
    pub(crate) fn range_row(&mut self, axiom: u32) -> Result<Option<CachedRange>, NoMemory>
        ensures row { IfOk result (IsUsableRange self.new «axiom») }
        ensures kept { Extends self.old.table self.new.table }
        ensures same { IsSameButTable self.old self.new }
        ensures table { IsTable self.new.table }
    {
        self.rows.range_row(axiom)
    }
}
