// Which tests of a log may answer a query again.
ghost use Rattle.std.specs.Prelude.{◌≡◌, ◌+◌, ◌<◌, ◌≤◌, ◌↔◌, [], ◌∷◌, ◌++◌, if◌then◌else◌, IfOk, IsTrue, OnOk, OnErr};
ghost use Rattle.std.specs.Prelude.{length, option_map, Contains};
ghost use Rattle.shq_oracle.specs.Entries.{EndAnswers};
ghost use Rattle.edit_session.specs.Prints.{query_print};
ghost use Rattle.edit_session.specs.Places.{places_at, AreFiled, StaysFiled, IsFiledAt, SamePlaces, KeepsPlaces};
ghost use Rattle.edit_session.specs.Places.{IsYesEnd, IsYesTo, IsYesAt, KeepsOthers, KeepsAllOthers, IsAnswerOf};
ghost use Rattle.edit_session.specs.Places.{IsFoundAt, IsFoundIn};
ghost use Rattle.edit_session.specs.Asking.{IsRecalled, outcome_of};

use crate::inclusion::is_part;
use crate::prints::{kept_print, query_print};
use axiom_sets::AxiomSet;
use shq_oracle::{Entry, KeptSet, Outcome, TestEnd};
use shq_terms::{NoMemory, NumberList, Query};
use std::alloc::Global;

/// Where the tests of a log stand that may answer a query again, under the print of their query, and how many entries
/// were seen.
#[derive(Drop)]
pub(crate) struct NotedPlaces {
    alloc: Global,
    seen: usize,
    places: Vec<NumberList>,
}

impl NotedPlaces {
    /// Nothing was seen.
    pub(crate) fn new(alloc: Global) -> NotedPlaces
        ensures seen { result.seen ≡ 0 }
        ensures places { result.places.items ≡ [] }
    {
        NotedPlaces {
            alloc,
            seen: 0,
            places: Vec::new(alloc),
        }
    }

    /// Forgets everything where the log has fewer entries than were seen: it is another log then.
    pub(crate) fn forget_other(&mut self, log: &[Entry])
        ensures within { self.new.seen ≤ length log.now }
        ensures kept { self.old.seen ≤ length log.now → self.new ≡ self.old }
        ensures forgotten { length log.now < self.old.seen → self.new.seen ≡ 0 }
    {
        if self.seen <= log.len() {
            return;
        }
        self.seen = 0;
        self.places.clear();
    }

    /// Sees all entries of the log.
    ///
    /// # Errors
    ///
    /// Out of memory. Nothing that was seen is lost.
    pub(crate) fn see_all(&mut self, log: &[Entry]) -> Result<(), NoMemory>
        requires { self.old.seen ≤ length log.now }
        ensures filed { StaysFiled self.old self.new log.now }
        ensures within { self.new.seen ≤ length log.now }
        ensures seen { OnOk result (self.new.seen ≡ length log.now) }
    {
        for _place in self.seen..log.len() {
            self.see_next(log)?;
        }
        Ok(())
    }

    // Sees the first entry that was not seen.
    fn see_next(&mut self, log: &[Entry]) -> Result<(), NoMemory>
        requires { self.old.seen < length log.now }
        ensures filed { StaysFiled self.old self.new log.now }
        ensures seen { OnOk result (self.new.seen ≡ self.old.seen + 1) }
        ensures unseen { OnErr result (self.new.seen ≡ self.old.seen) }
    {
        let Ok(place) = u32::try_from(self.seen) else {
            return Err(NoMemory);
        };
        file_entry(self.alloc, &mut self.places, &log[self.seen], place)?;
        self.seen += 1;
        Ok(())
    }

    /// What an entry of the log tells of the query and the live axioms. All entries were seen.
    ///
    /// # Errors
    ///
    /// Out of memory.
    pub(crate) fn recall(
        &self,
        log: &[Entry],
        query: &Query,
        live: &AxiomSet,
    ) -> Result<Option<Outcome>, NoMemory>
        requires { AreFiled self.now.places.items live.now.members (length log.now) log.now }
        ensures { IfOk result (IsRecalled log.now live.now query.now) }
    {
        match self.find(log, query, live) {
            Some(end) => Ok(Some(told_by(end)?)),
            None => Ok(None),
        }
    }

    // How the latest test ended that is filed and answers the query.
    fn find<'a>(&self, log: &'a [Entry], query: &Query, live: &AxiomSet) -> Option<&'a TestEnd>
        ensures { IsFoundIn log.now live.now query.now (places_at self.now.places.items (query_print query.now))
            (option_map (λ e. e.now) result) }
    {
        let print = query_print(query) as usize;
        if print < self.places.len() {
            latest_of(log, self.places[print].items(), query, live)
        } else {
            None
        }
    }

    /// Forgets each yes to the query.
    ///
    /// # Errors
    ///
    /// Out of memory. Nothing is forgotten then.
    pub(crate) fn forget_yes(&mut self, log: &[Entry], query: &Query) -> Result<(), NoMemory>
        ensures others { KeepsAllOthers log.now query.now self.old.places.items self.new.places.items }
        ensures seen { self.new.seen ≡ self.old.seen }
    {
        let print = query_print(query) as usize;
        if print < self.places.len() {
            forget_at(self.alloc, &mut self.places, print, log, query)?;
        }
        Ok(())
    }
}

// Files a test under the print of its query, by its place.
fn file_entry(
    alloc: Global,
    places: &mut Vec<NumberList>,
    entry: &Entry,
    place: u32,
) -> Result<(), NoMemory>
    ensures keeps { KeepsPlaces places.old.items places.new.items }
    ensures filed { OnOk result (IsFiledAt places.new.items entry.now place) }
{
    match entry {
        Entry::Test(_, query, _, _) => file(alloc, places, kept_print(query), place),
        Entry::Node(_) => Ok(()),
    }
}

// Files a place under a print, after those that are there.
fn file(alloc: Global, places: &mut Vec<NumberList>, print: u32, place: u32) -> Result<(), NoMemory>
    ensures keeps { KeepsPlaces places.old.items places.new.items }
    ensures filed { OnOk result (Contains (places_at places.new.items print) place) }
{
    grow(alloc, places, print)?;
    push_at(places, print, place)
}

// Puts empty lists last, until there is one for the print.
fn grow(alloc: Global, places: &mut Vec<NumberList>, print: u32) -> Result<(), NoMemory>
    ensures long { OnOk result (print < length places.new.items) }
    ensures same { SamePlaces places.old.items places.new.items }
{
    for _ in places.len()..print as usize + 1 {
        places.push(NumberList::new(alloc))?;
    }
    Ok(())
}

fn push_at(places: &mut Vec<NumberList>, print: u32, place: u32) -> Result<(), NoMemory>
    requires { print < length places.old.items }
    ensures keeps { KeepsPlaces places.old.items places.new.items }
    ensures filed { OnOk result (Contains (places_at places.new.items print) place) }
{
    let list = &mut places[print as usize];
    list.push(place)
}

// The last of these places where a test answers the query, by how the test ended.
fn latest_of<'a>(
    log: &'a [Entry],
    places: &[u32],
    query: &Query,
    live: &AxiomSet,
) -> Option<&'a TestEnd>
    ensures { IsFoundIn log.now live.now query.now places.now (option_map (λ e. e.now) result) }
{
    let mut left = places.len();
    while left > 0 {
        left -= 1;
        let found = answer_at(log, places[left] as usize, query, live);
        if found.is_some() {
            return found;
        }
    }
    None
}

// How the entry at a place ended, if it is a test that answers the query.
fn answer_at<'a>(
    log: &'a [Entry],
    place: usize,
    query: &Query,
    live: &AxiomSet,
) -> Option<&'a TestEnd>
    ensures { IsFoundAt log.now live.now query.now place (option_map (λ e. e.now) result) }
{
    if place < log.len() {
        answer_of(&log[place], query, live)
    } else {
        None
    }
}

fn answer_of<'a>(entry: &'a Entry, query: &Query, live: &AxiomSet) -> Option<&'a TestEnd>
    ensures { IsAnswerOf entry.now live.now query.now (option_map (λ e. e.now) result) }
{
    match entry {
        Entry::Test(set, asked, _, end) => {
            if asked.is_same(query) && answers(set, end, live) {
                return Some(end);
            }
            None
        }
        Entry::Node(_) => None,
    }
}

// Whether a test of a set that ended so tells whether its query follows from the live axioms.
fn answers(set: &KeptSet, end: &TestEnd, live: &AxiomSet) -> bool
    ensures { IsTrue result ↔ EndAnswers set.now end.now live.now }
{
    match end {
        TestEnd::Yes(found) => is_part(found.set(), live),
        TestEnd::No => is_part(live, set.set()),
        TestEnd::Spent(_) => false,
    }
}

// Of the places under a print forgets those where a yes to the query stands.
fn forget_at(
    alloc: Global,
    places: &mut Vec<NumberList>,
    print: usize,
    log: &[Entry],
    query: &Query,
) -> Result<(), NoMemory>
    requires { print < length places.old.items }
    ensures { KeepsAllOthers log.now query.now places.old.items places.new.items }
{
    let kept = without_yes(alloc, places[print].items(), log, query)?;
    places[print] = kept;
    Ok(())
}

// Of these places those where no yes to the query stands.
fn without_yes(
    alloc: Global,
    places: &[u32],
    log: &[Entry],
    query: &Query,
) -> Result<NumberList, NoMemory>
    ensures { IfOk result (KeepsOthers log.now query.now places.now) }
{
    let mut kept = NumberList::new(alloc);
    for place in places {
        push_unless(&mut kept, *place, is_yes_at(log, *place as usize, query))?;
    }
    Ok(kept)
}

// Puts a place last, unless it is to be left out.
fn push_unless(kept: &mut NumberList, place: u32, is_out: bool) -> Result<(), NoMemory>
    ensures { OnOk result (kept.new ≡ (if is_out then kept.old else kept.old ++ place ∷ [])) }
{
    if !is_out {
        kept.push(place)?;
    }
    Ok(())
}

fn is_yes_at(log: &[Entry], place: usize, query: &Query) -> bool
    ensures { IsTrue result → IsYesAt log.now place query.now }
{
    place < log.len() && is_yes(&log[place], query)
}

fn is_yes(entry: &Entry, query: &Query) -> bool
    ensures { IsTrue result → IsYesTo entry.now query.now }
{
    match entry {
        Entry::Test(_, asked, _, end) => is_yes_end(end) && asked.is_same(query),
        Entry::Node(_) => false,
    }
}

fn is_yes_end(end: &TestEnd) -> bool
    ensures { IsTrue result → IsYesEnd end.now }
{
    match end {
        TestEnd::Yes(_) => true,
        TestEnd::No | TestEnd::Spent(_) => false,
    }
}

// What a test that ended so tells.
fn told_by(end: &TestEnd) -> Result<Outcome, NoMemory>
    ensures { IfOk result (λ v. v ≡ outcome_of end.now) }
{
    Ok(match end {
        TestEnd::Yes(found) => Outcome::Yes(found.copied()?),
        TestEnd::No => Outcome::No,
        TestEnd::Spent(_) => Outcome::Undecided,
    })
}
