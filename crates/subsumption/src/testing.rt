// One question to the oracle, and its answer.
ghost use Rattle.std.specs.Prelude.{◌≡◌, ◌≤◌, false, length, IfOk, IfSome, OnOk, OnErr};
ghost use Rattle.std.specs.List.{list_any};
ghost use Rattle.shq_terms.specs.declared.axioms.On.TheVariants.{Any};
ghost use Rattle.shq_oracle.specs.Limits.{IsInLimit};
ghost use Rattle.shq_oracle.specs.Entries.{spent_of, is_spent, IsAnswered};
ghost use Rattle.subsumption.specs.Subsumption.{class_at, query_at};
ghost use Rattle.shq_oracle.specs.ApartLists.{IsAbout};
ghost use Rattle.subsumption.specs.Tests.{verdict_of, newest, IsTested, IsNoted, AreAlike, Begins, HasBegun};

use axiom_sets::AxiomSet;
use shq_oracle::{Apart, Oracle, Outcome};
use shq_terms::{Concept, MAX_CLASSES, NoMemory, Node, On, Query};

/// What a test found.
#[derive(Clone, Copy)]
pub(crate) enum Verdict {
    /// The first class is included in the second.
    Yes,
    /// It is not.
    No,
    /// The budget was spent.
    Spent,
}

/// Asks whether class `x` is included in class `y` by the axioms of the set. `count` is the number of listed classes.
/// If what is kept of an earlier search for a member of `x` shows that it is not, no search is made. What a search
/// shows of further classes is kept.
///
/// # Errors
///
/// Out of memory. The log is as before then.
pub(crate) fn test<'a>(
    oracle: &mut Oracle<'a>,
    kept: &mut Option<Apart<'a>>,
    axioms: &AxiomSet,
    count: u32,
    x: u32,
    y: u32,
) -> Result<Verdict, NoMemory>
    requires small { count ≤ MAX_CLASSES }
    requires listed { count ≡ length oracle.old.ontology.classes }
    requires limit { axioms.now.limit ≡ length oracle.old.ontology.axioms }
    requires in_limit { IsInLimit oracle.old.ontology (query_at count x y) }
    requires goes_on { list_any is_spent oracle.old.log ≡ false }
    requires is_new { IsAnswered oracle.old.log axioms.now (query_at count x y) → ⊥ }
    requires kept { IfSome kept.old (IsAbout oracle.old.ontology axioms.now (class_at count x)) }
    ensures tested { IfOk result (IsTested oracle.old oracle.new axioms.now (query_at count x y)) }
    ensures within { spent_of oracle.new.log ≤ oracle.new.budget }
    ensures begins { Begins count x y oracle.old oracle.new }
    ensures begun { OnOk result (HasBegun count x y oracle.old oracle.new) }
    ensures alike { AreAlike oracle.old oracle.new }
    ensures unchanged { OnErr result (oracle.new.log ≡ oracle.old.log) }
    ensures kept { IfSome kept.new (IsAbout oracle.old.ontology axioms.now (class_at count x)) }
{
    let query = query_between(count, x, y);
    let verdict = decide(oracle, kept, axioms, &query, y, count);
    drop(query);
    verdict
}

// Asks the query, whose superclass is class `y`: by what is kept, or else by a search.
fn decide<'a>(
    oracle: &mut Oracle<'a>,
    kept: &mut Option<Apart<'a>>,
    axioms: &AxiomSet,
    query: &Query,
    y: u32,
    count: u32,
) -> Result<Verdict, NoMemory>
    requires listed { count ≡ length oracle.old.ontology.classes }
    requires asked { query.now.sup ≡ class_at count y }
    requires of_all { query.now.on ≡ Any }
    requires limit { axioms.now.limit ≡ length oracle.old.ontology.axioms }
    requires in_limit { IsInLimit oracle.old.ontology query.now }
    requires goes_on { list_any is_spent oracle.old.log ≡ false }
    requires is_new { IsAnswered oracle.old.log axioms.now query.now → ⊥ }
    requires kept { IfSome kept.old (IsAbout oracle.old.ontology axioms.now query.now.sub) }
    ensures tested { IfOk result (IsTested oracle.old oracle.new axioms.now query.now) }
    ensures within { spent_of oracle.new.log ≤ oracle.new.budget }
    ensures alike { AreAlike oracle.old oracle.new }
    ensures unchanged { OnErr result (oracle.new.log ≡ oracle.old.log) }
    ensures kept { IfSome kept.new (IsAbout oracle.old.ontology axioms.now query.now.sub) }
{
    let noted = note_if_shown(oracle, kept, axioms, query, y, count)?;
    if noted {
        return Ok(Verdict::No);
    }
    search(oracle, kept, axioms, query)
}

// Logs that the query does not follow, if what is kept shows it and the budget allows it. Answers whether it did.
#[tactic(auto, using(crate::proofs::Begun::alike_still))]
fn note_if_shown(
    oracle: &mut Oracle<'_>,
    kept: &Option<Apart<'_>>,
    axioms: &AxiomSet,
    query: &Query,
    y: u32,
    count: u32,
) -> Result<bool, NoMemory>
    requires listed { count ≡ length oracle.old.ontology.classes }
    requires asked { query.now.sup ≡ class_at count y }
    requires of_all { query.now.on ≡ Any }
    requires goes_on { list_any is_spent oracle.old.log ≡ false }
    requires is_new { IsAnswered oracle.old.log axioms.now query.now → ⊥ }
    requires kept { IfSome kept.now (IsAbout oracle.old.ontology axioms.now query.now.sub) }
    ensures noted { IfOk result (IsNoted oracle.old oracle.new axioms.now query.now) }
    ensures within { spent_of oracle.new.log ≤ oracle.new.budget }
    ensures alike { AreAlike oracle.old oracle.new }
    ensures unchanged { OnErr result (oracle.new.log ≡ oracle.old.log) }
{
    match kept {
        Some(apart) => note_shown(oracle, apart, axioms, query, y, count),
        None => {
            // The contract of `left` says that what was spent is within the budget.
            oracle.left();
            Ok(false)
        }
    }
}

// Logs that the query does not follow, if its superclass is a listed class of which an earlier search shows that, and
// the budget allows it. Answers whether it did.
#[tactic(auto, using(crate::proofs::Begun::alike_still))]
fn note_shown(
    oracle: &mut Oracle<'_>,
    apart: &Apart<'_>,
    axioms: &AxiomSet,
    query: &Query,
    y: u32,
    count: u32,
) -> Result<bool, NoMemory>
    requires listed { count ≡ length oracle.old.ontology.classes }
    requires asked { query.now.sup ≡ class_at count y }
    requires of_all { query.now.on ≡ Any }
    requires goes_on { list_any is_spent oracle.old.log ≡ false }
    requires is_new { IsAnswered oracle.old.log axioms.now query.now → ⊥ }
    requires apart { IsAbout oracle.old.ontology axioms.now query.now.sub apart.now }
    ensures noted { IfOk result (IsNoted oracle.old oracle.new axioms.now query.now) }
    ensures within { spent_of oracle.new.log ≤ oracle.new.budget }
    ensures alike { AreAlike oracle.old oracle.new }
    ensures unchanged { OnErr result (oracle.new.log ≡ oracle.old.log) }
{
    if y >= count {
        // The contract of `left` says that what was spent is within the budget.
        oracle.left();
        return Ok(false);
    }
    let noted = oracle.note_apart(apart, y)?;
    Ok(noted)
}

// Searches whether the query follows.
fn search<'a>(
    oracle: &mut Oracle<'a>,
    kept: &mut Option<Apart<'a>>,
    axioms: &AxiomSet,
    query: &Query,
) -> Result<Verdict, NoMemory>
    requires limit { axioms.now.limit ≡ length oracle.old.ontology.axioms }
    requires in_limit { IsInLimit oracle.old.ontology query.now }
    requires goes_on { list_any is_spent oracle.old.log ≡ false }
    requires is_new { IsAnswered oracle.old.log axioms.now query.now → ⊥ }
    requires kept { IfSome kept.old (IsAbout oracle.old.ontology axioms.now query.now.sub) }
    ensures tested { IfOk result (IsTested oracle.old oracle.new axioms.now query.now) }
    ensures within { spent_of oracle.new.log ≤ oracle.new.budget }
    ensures alike { AreAlike oracle.old oracle.new }
    ensures unchanged { OnErr result (oracle.new.log ≡ oracle.old.log) }
    ensures kept { IfSome kept.new (IsAbout oracle.old.ontology axioms.now query.now.sub) }
{
    let shown = oracle.test_apart(axioms, query)?;
    keep(kept, shown.apart);
    Ok(verdict_of(shown.outcome))
}

// Keeps what was shown last, if anything was.
fn keep<'a>(kept: &mut Option<Apart<'a>>, apart: Option<Apart<'a>>)
    ensures { kept.new ≡ newest apart.entry kept.old }
{
    match apart {
        Some(apart) => *kept = Some(apart),
        None => {}
    }
}

// The verdict of an outcome, without the axioms of a yes.
fn verdict_of(outcome: Outcome) -> Verdict
    ensures { result ≡ verdict_of outcome }
{
    match outcome {
        Outcome::Yes(used) => {
            drop(used);
            Verdict::Yes
        }
        Outcome::No => Verdict::No,
        Outcome::Undecided => Verdict::Spent,
    }
}

// The question whether class x is included in class y.
fn query_between(count: u32, x: u32, y: u32) -> Query
    requires { count ≤ MAX_CLASSES }
    ensures { result ≡ query_at count x y }
{
    Query {
        sub: class_of(count, x),
        sup: class_of(count, y),
        on: On::Any,
    }
}

// The class of a number: first come the listed classes, then `owl:Thing`, and then `owl:Nothing`.
fn class_of(count: u32, number: u32) -> Concept
    requires { count ≤ MAX_CLASSES }
    ensures { result ≡ class_at count number }
{
    let node = if number == count {
        Node::Top
    } else if number == count + 1 {
        Node::Bottom
    } else {
        Node::Name(number)
    };
    Concept { node }
}
