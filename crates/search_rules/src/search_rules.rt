// The rules of searches over one set of axioms.
ghost use Rattle.std.specs.Prelude.{◌≡◌, ℕ, ◌<◌, ◌≤◌, ◌&&◌, All, IsTrue, IfOk, OnOk, OnErr, length};
ghost use Rattle.std.specs.FinSet as sets;
ghost use Rattle.calculus_specs.specs.Shape.{IsTable};
ghost use Rattle.absorption.specs.Sets.{IsWithin, member_list};
ghost use Rattle.absorption.specs.Tables.{IsRowTable};
ghost use Rattle.absorption.specs.Closed.{IsClosed};
ghost use Rattle.assertion_box.specs.Stated.{stated_facts};
ghost use Rattle.ontology_limits.specs.Counts.{has_counts_within};
ghost use Rattle.ontology_limits.specs.Meeting.{is_role_number};
ghost use Rattle.ontology_limits.specs.Numbers.{Extends};
ghost use Rattle.ontology_limits.specs.RoleAxioms.{role_axioms};
ghost use Rattle.ontology_limits.specs.Steps.{is_transitive};
ghost use Rattle.ontology_limits.specs.Paths.{is_below};
ghost use Rattle.absorption.specs.Theory.{node_in_question};
ghost use Rattle.ontology_limits.specs.Limits.{IsOntologyInLimit};
ghost use Rattle.search_rules.specs.GivenFacts.{AreNumbered};
ghost use Rattle.search_rules.specs.Tables.{AreNumberLists, AreEdgeLists};

use crate::NoMemory;
use crate::edge_tables::EdgeTables;
use crate::given_facts::GivenFacts;
use crate::number_tables::NumberTables;
use crate::query_numbers::{QueryNumbers, closed_tables, query_numbers};
use crate::role_axioms::role_axioms_of;
use absorption::RowTable;
use axiom_sets::AxiomSet;
use ontology_limits::{Concepts, RoleBox, Shape, each_axiom_is_in_limit};
use shq_terms::{On, Ontology, Query};
use std::alloc::Global;
use std::marker::Model;
use step_finders::{Given, NamedRow, PlainRow, Rules};

/// The concepts, roles and rows through which searches use the axioms of one set, and the tables in which searches look
/// these up.
#[derive(Drop)]
pub struct SearchRules<'a> {
    ontology: &'a Ontology,
    set: AxiomSet,
    role_axioms: AxiomSet,
    concepts: Concepts,
    roles: RoleBox,
    rows: RowTable,
    given: GivenFacts,
    numbers: NumberTables,
    edges: EdgeTables,
}

impl<'a> Model for SearchRules<'a> {
    ghost use Rattle.std.specs.Coded.{codes};
    ghost use Rattle.shq_terms.specs.Code.{concept_code};
    ghost use Rattle.absorption.specs.Sets.{limited_code};
    ghost use Rattle.search_rules.specs.RuleLists.{RuleLists};
    ghost use Rattle.search_rules.specs.Tables.{AreKept};

    ghost Value = { RuleLists };

    ghost coded = { Prim.hlevel (codes, concept_code, limited_code) };

    ghost view = { λ r. record {
      ontology = r.ontology.now;
      set = r.set;
      table = r.concepts;
      filed = r.rows;
      given = r.given;
    } };

    ghost invariant = { λ r. AreKept
        (record { ontology = r.ontology.now; set = r.set; table = r.concepts; filed = r.rows; given = r.given })
        r.role_axioms r.roles r.numbers r.edges };
}

impl<'a> SearchRules<'a> {
    ghost use Rattle.search_rules.specs.RuleLists.{RuleLists, numbers_in, context_in, IsReady, IsGrown, AreNumbersOf};

    /// The rules of a set of axioms of the ontology.
    ///
    /// # Errors
    ///
    /// Out of memory, or out of numbers for concepts.
    pub fn build(
        alloc: Global,
        ontology: &'a Ontology,
        set: &AxiomSet,
    ) -> Result<SearchRules<'a>, NoMemory>
        requires numbers { IsWithin (length ontology.now.axioms) set.now.members }
        requires in_limit { IsOntologyInLimit ontology.now }
        ensures ontology { IfOk result (λ r. r.ontology ≡ ontology.now) }
        ensures set { IfOk result (λ r. r.set ≡ set.now) }
    {
        let only = listed(alloc, set)?;
        rules_of(alloc, ontology, set, &only)
    }

    /// The numbers of the two concepts that a query asks of: its subclass, and the complement of its superclass. Their
    /// cardinalities are at most 100. If both are in the table of concepts already, nothing is made; otherwise they are
    /// put there, and the tables by number are made anew.
    ///
    /// # Errors
    ///
    /// Out of memory, or out of numbers for concepts. The rules are as before then.
    pub fn numbers_of(&mut self, alloc: Global, query: &Query) -> Result<(u32, u32), NoMemory>
        requires sub { IsTrue (has_counts_within 100 query.now.sub) }
        requires sup { IsTrue (has_counts_within 100 query.now.sup) }
        ensures numbers { IfOk result (λ p. AreNumbersOf self.new query.now p.0 p.1) }
        ensures kept { IsGrown self.old self.new }
        ensures same { OnErr result (self.new ≡ self.old) }
    {
        let QueryNumbers {
            sub,
            not_sup,
            tables,
        } = query_numbers(alloc, &mut self.concepts, &self.roles, &self.rows, query)?;
        match tables {
            Some(tables) => {
                self.numbers = tables;
                Ok((sub, not_sup))
            }
            None => Ok((sub, not_sup)),
        }
    }

    /// The node in question: that of the individual that the query speaks of, or, if it speaks of any element, the node
    /// after those of all individuals. An individual that is not listed has no node; the answer is no first node then.
    pub fn node_in_question(&self, query: &Query) -> u32
        ensures { result ≡ node_in_question (length self.now.ontology.individuals) query.now.on }
    {
        let count = self.ontology.individual_count();
        match query.on {
            On::Any => count,
            On::Individual(individual) => {
                if individual < count {
                    individual
                } else {
                    count + 1
                }
            }
        }
    }

    /// The ontology.
    pub fn ontology(&self) -> &Ontology
        ensures { result.now ≡ self.now.ontology }
    {
        self.ontology
    }

    /// The set of axioms.
    pub fn set(&self) -> &AxiomSet
        ensures set { result.now ≡ self.now.set }
        ensures ready { IsReady self.now }
    {
        &self.set
    }

    /// The role axioms of the set.
    pub fn role_axioms(&self) -> &AxiomSet
        ensures limit { result.now.limit ≡ self.now.set.limit }
        ensures members { (k : ℕ) → sets.contains result.now.members k
            ≡ (sets.contains self.now.set.members k && is_role_number self.now.ontology.axioms k) }
    {
        &self.role_axioms
    }

    /// The concepts by number.
    pub fn concepts(&self) -> &Concepts
        ensures concepts { result.now ≡ self.now.table }
        ensures ready { IsReady self.now }
    {
        &self.concepts
    }

    /// The roles of the set.
    pub fn roles(&self) -> &RoleBox
        ensures { result.now ≡ role_axioms self.now.ontology.axioms (numbers_in self.now) }
    {
        &self.roles
    }

    /// The rows of the set.
    pub fn rows(&self) -> &RowTable
        ensures rows { result.now ≡ self.now.filed }
        ensures ready { IsReady self.now }
    {
        &self.rows
    }
}

// The rules of the axioms of a set, whose numbers are listed.
fn rules_of<'a>(
    alloc: Global,
    ontology: &'a Ontology,
    set: &AxiomSet,
    only: &[u32],
) -> Result<SearchRules<'a>, NoMemory>
    requires numbers { IsWithin (length ontology.now.axioms) set.now.members }
    requires listed { only.now ≡ member_list set.now }
    requires in_limit { IsOntologyInLimit ontology.now }
    ensures ontology { IfOk result (λ r. r.ontology ≡ ontology.now) }
    ensures set { IfOk result (λ r. r.set ≡ set.now) }
{
    let roles = RoleBox::build(alloc, ontology, only)?;
    let mut concepts = Concepts::new(alloc)?;
    let (rows, given) = rows_and_facts(alloc, ontology, set, only, &mut concepts)?;
    let (numbers, edges) = tables_of(alloc, &mut concepts, &roles, &rows)?;
    let (set, role_axioms) = kept_sets(alloc, ontology, set, only)?;
    Ok(SearchRules {
        ontology,
        set,
        role_axioms,
        concepts,
        roles,
        rows,
        given,
        numbers,
        edges,
    })
}

// The set once more, and its role axioms.
fn kept_sets(
    alloc: Global,
    ontology: &Ontology,
    set: &AxiomSet,
    only: &[u32],
) -> Result<(AxiomSet, AxiomSet), NoMemory>
    requires { only.now ≡ member_list set.now }
    ensures same { IfOk result (λ p. p.0 ≡ set.now) }
    ensures limit { IfOk result (λ p. p.1.limit ≡ set.now.limit) }
    ensures members { IfOk result (λ p. (k : ℕ) → sets.contains p.1.members k
        ≡ (sets.contains set.now.members k && is_role_number ontology.now.axioms k)) }
{
    let role_axioms = role_axioms_of(alloc, ontology, set, only)?;
    let set = set.try_clone()?;
    Ok((set, role_axioms))
}

// The rows and the stated facts of a set. Their concepts are put into the table, and the complement of each name.
fn rows_and_facts(
    alloc: Global,
    ontology: &Ontology,
    set: &AxiomSet,
    only: &[u32],
    concepts: &mut Concepts,
) -> Result<(RowTable, GivenFacts), NoMemory>
    requires numbers { IsWithin (length ontology.now.axioms) set.now.members }
    requires listed { only.now ≡ member_list set.now }
    requires in_limit { IsOntologyInLimit ontology.now }
    ensures rows { IfOk result (λ p. IsRowTable ontology.now.axioms (member_list set.now) concepts.new p.0) }
    ensures facts { IfOk result (λ p. AreNumbered concepts.new (stated_facts ontology.now.axioms only.now) p.1) }
{
    each_axiom_is_in_limit();
    let rows = RowTable::build(alloc, ontology, set, concepts)?;
    let given = GivenFacts::build(alloc, ontology, only, concepts)?;
    put_complements_of_names(concepts)?;
    Ok((rows, given))
}

// The tables by number of a table of concepts, which is closed for them.
fn tables_of(
    alloc: Global,
    concepts: &mut Concepts,
    roles: &RoleBox,
    rows: &RowTable,
) -> Result<(NumberTables, EdgeTables), NoMemory>
    ensures numbers { IfOk result (λ p. AreNumberLists concepts.new roles.now rows.now.at_names p.0) }
    ensures edges { IfOk result (λ p. AreEdgeLists (is_below roles.now) rows.now p.1) }
    ensures closed { OnOk result (IsClosed (is_below roles.now) (is_transitive roles.now) concepts.new) }
    ensures kept { Extends concepts.old concepts.new }
    ensures concepts { IsTable concepts.new }
{
    let numbers = closed_tables(alloc, concepts, roles, rows)?;
    let edges = EdgeTables::build(alloc, roles, rows)?;
    Ok((numbers, edges))
}

// The members of the set, ascending.
fn listed(alloc: Global, set: &AxiomSet) -> Result<Vec<u32>, NoMemory>
    ensures { IfOk result (λ numbers. numbers.items ≡ member_list set.now) }
{
    Ok(set.numbers().collect(alloc)?)
}

// Puts the complement of each name, since a query asks for that of its right side.
fn put_complements_of_names(concepts: &mut Concepts) -> Result<(), NoMemory>
    ensures kept { Extends concepts.old concepts.new }
    ensures table { IsTable concepts.new }
{
    for number in 0..concepts.len() {
        put_complement_of_name(concepts, number)?;
    }
    Ok(())
}

fn put_complement_of_name(concepts: &mut Concepts, number: u32) -> Result<(), NoMemory>
    requires { number < length concepts.old }
    ensures kept { Extends concepts.old concepts.new }
    ensures table { IsTable concepts.new }
{
    match class_of(concepts.shape(number)) {
        Some(class) => {
            concepts.put(Shape::NotName(class))?;
            Ok(())
        }
        None => Ok(()),
    }
}

fn class_of(shape: Shape<'_>) -> Option<u32> {
    match shape {
        Shape::Name(class) => Some(class),
        _ => None,
    }
}

impl<'a> Rules for SearchRules<'a> {
    ghost use Rattle.std.specs.Prelude.{◌≡◌};
    ghost use Rattle.calculus_specs.specs.Shape.{IsTable};
    ghost use Rattle.search_rules.specs.RuleLists.{context_in};
    ghost use Rattle.search_rules.specs.Files.{files_in};

    ghost context = { context_in };

    ghost files = { files_in };

    fn first(&self) -> u32 {
        self.ontology.individual_count() + 1
    }

    fn given(&self) -> &[Given] {
        self.given.facts()
    }

    fn given_into(&self, node: u32) -> &[(u32, u32)] {
        self.given.edges_into(node)
    }

    fn shape(&self, concept: u32) -> Shape<'_> {
        if concept < self.concepts.len() {
            self.concepts.shape(concept)
        } else {
            Shape::Top
        }
    }

    fn is_below(&self, lower: u32, upper: u32) -> bool {
        self.roles.below(lower, upper)
    }

    fn carries(&self, concept: u32) -> &[(u32, u32)] {
        self.numbers.carries(concept)
    }

    fn complement(&self, concept: u32) -> Option<u32> {
        if concept < self.concepts.len() {
            self.numbers.complement(concept)
        } else {
            self.numbers.complement(0)
        }
    }

    fn mosts(&self, filler: u32) -> &[u32] {
        self.numbers.mosts(filler)
    }

    fn general(&self) -> &[PlainRow] {
        self.edges.general()
    }

    fn named(&self, concept: u32) -> &[NamedRow] {
        self.numbers.named(concept)
    }

    fn at_begins(&self, role: u32) -> &[PlainRow] {
        self.edges.begins(role)
    }

    fn at_ends(&self, role: u32) -> &[PlainRow] {
        self.edges.ends(role)
    }

    fn is_ready(&self) {
        let _ = &self.concepts;
    }
}
