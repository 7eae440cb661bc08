// The facts of the assertions among some axioms.
ghost use Rattle.std.specs.Prelude.{◌≡◌, ◌<◌, ◌≤◌, ◌↔◌, IsTrue, IfOk, length};
ghost use Rattle.std.specs.List.{All};
ghost use Rattle.assertion_box.specs.Stated.{stated_facts, stated_at};
ghost use Rattle.assertion_box.specs.Entries.{axiom_of, fact_of};
ghost use Rattle.assertion_box.specs.Places.{places_of, list_at, ArePlacesOf};

use crate::NoMemory;
use crate::given::Given;
use crate::place_lists::{Places, place_lists};
use crate::stated_list::StatedList;
use refutation_truth::{NumberList, Ontology};
use std::alloc::Global;
use std::marker::Model;

/// The facts of the assertions among some axioms of an ontology, in the order of the axioms and of each one's facts.
#[derive(Drop)]
pub struct Facts {
    stated: StatedList,
    places: Vec<NumberList>,
}

impl Model for Facts {
    ghost use Rattle.std.specs.Prelude.{List, ℕ, ◌≡◌};
    ghost use Rattle.std.specs.Coded.{codes};
    ghost use Rattle.refutation_truth.specs.Code.{concept_code};
    ghost use Rattle.assertion_box.specs.Stated.{Stated};
    ghost use Rattle.assertion_box.specs.Places.{places_of, list_at};

    ghost Value = { List Stated };

    ghost coded = { Prim.hlevel (codes, concept_code) };

    ghost view = { λ f. f.stated };

    ghost invariant = { λ f. (a : ℕ) → list_at f.places.items a ≡ places_of a f.stated };
}

impl Facts {
    /// Those of the axioms of these numbers, which ascend from 1. Axioms of other kinds are passed over.
    ///
    /// # Errors
    ///
    /// `NoMemory` where the allocator refuses room, or there would be 2^32 facts.
    pub fn build(alloc: Global, ontology: &Ontology, only: &[u32]) -> Result<Facts, NoMemory>
        requires { All (λ k. (1 ≤ k) × (k ≤ length ontology.now.axioms)) only.now }
        ensures { IfOk result (λ facts. facts ≡ stated_facts ontology.now.axioms only.now) }
    {
        let stated = stated_list(alloc, ontology, only)?;
        let places = place_lists(alloc, &stated)?;
        Ok(Facts { stated, places })
    }

    /// How many facts there are.
    pub fn len(&self) -> u32
        ensures { result ≡ length self.now }
    {
        self.stated.len()
    }

    /// Whether there are none.
    pub fn is_empty(&self) -> bool
        ensures { IsTrue result ↔ (length self.now ≡ 0) }
    {
        self.len() == 0
    }

    /// The fact at a place, from 0.
    pub fn get(&self, place: u32) -> Given<'_>
        requires { place < length self.now }
        ensures number { axiom_of result ≡ (stated_at self.now place).axiom_number }
        ensures says { fact_of result ≡ (stated_at self.now place).fact }
    {
        self.stated.get(place)
    }

    /// The place, from 1, that the fact at a place has among those of its axiom.
    pub fn place_in_axiom(&self, place: u32) -> u32
        requires { place < length self.now }
        ensures { result ≡ (stated_at self.now place).place }
    {
        self.stated.place_in_axiom(place)
    }

    /// The places of the facts that name an individual, ascending. They are all that the iterator goes over.
    pub fn of(&self, individual: u32) -> Places<'_>
        ensures { ArePlacesOf individual self.now result }
    {
        Places::new(list_at(&self.places, individual))
    }
}

fn stated_list(alloc: Global, ontology: &Ontology, only: &[u32]) -> Result<StatedList, NoMemory>
    requires { All (λ k. (1 ≤ k) × (k ≤ length ontology.now.axioms)) only.now }
    ensures { IfOk result (λ facts. facts ≡ stated_facts ontology.now.axioms only.now) }
{
    let all = ontology.axioms();
    let mut facts = StatedList::new(alloc);
    for number in only {
        facts.push_axiom(*number, &all[*number as usize - 1].axiom)?;
    }
    Ok(facts)
}

// The list under a number. There is none from some number on.
fn list_at(lists: &[NumberList], number: u32) -> &[u32]
    ensures { result.now ≡ list_at lists.now number }
{
    match lists.get(number as usize) {
        Some(list) => list.items(),
        None => &[],
    }
}
