// A query that an entry keeps.
ghost use Rattle.std.specs.Prelude.{◌≡◌, ◌↔◌, IfOk, IsTrue};

use crate::NoMemory;
use shq_terms::{Concept, On, Query};
use std::alloc::Global;
use std::marker::Model;
use std::rc::Rc;

/// A query that an entry keeps. Entries may share its subclass. Contracts see the query.
#[derive(Drop)]
pub struct KeptQuery {
    sub: Rc<Concept>,
    sup: Concept,
    on: On,
}

impl Model for KeptQuery {
    ghost use Rattle.std.specs.Coded.{codes};
    ghost use Rattle.shq_terms.specs.Code.{concept_code};
    ghost use Rattle.shq_terms.specs.declared.axioms.Query.{Query as Asked};

    ghost Value = { Asked };

    ghost coded = { Prim.hlevel (codes, concept_code) };

    ghost view = { λ q. record { sub = q.sub.value; sup = q.sup; on = q.on } };
}

impl KeptQuery {
    /// Keeps a copy of the query, which shares nothing yet.
    ///
    /// # Errors
    ///
    /// Out of memory.
    pub fn new(alloc: Global, query: &Query) -> Result<KeptQuery, NoMemory>
        ensures { IfOk result (λ kept. kept ≡ query.now) }
    {
        let sub = query.sub.try_clone(alloc)?;
        let sup = query.sup.try_clone(alloc)?;
        Ok(KeptQuery {
            sub: Rc::new(alloc, sub)?,
            sup,
            on: query.on,
        })
    }

    /// The subclass of the query: of whose elements it speaks.
    pub fn sub(&self) -> &Concept
        ensures { result.now ≡ self.now.sub }
    {
        &self.sub
    }

    /// The superclass of the query: in which these elements are, if it follows.
    pub fn sup(&self) -> &Concept
        ensures { result.now ≡ self.now.sup }
    {
        &self.sup
    }

    /// Whether the query speaks of any element, or of one individual.
    pub fn on(&self) -> On
        ensures { result ≡ self.now.on }
    {
        self.on
    }

    /// Whether the other query is the same. Takes no memory.
    pub fn is_same(&self, other: &Query) -> bool
        ensures { IsTrue result ↔ (self.now ≡ other.now) }
    {
        self.sub().is_same(&other.sub) && self.sup.is_same(&other.sup) && self.on.is_same(other.on)
    }

    // Keeps the other query, which shares the subclass of this one if it has the same.
    pub(crate) fn shared_or_copied(
        &self,
        alloc: Global,
        other: &Query,
    ) -> Result<KeptQuery, NoMemory>
        ensures { IfOk result (λ kept. kept ≡ other.now) }
    {
        if self.sub().is_same(&other.sub) {
            self.sharing_sub(alloc, other)
        } else {
            KeptQuery::new(alloc, other)
        }
    }

    // Keeps the other query, which shares the same subclass. How often that is shared is counted; if the count has no
    // room, this fails.
    fn sharing_sub(&self, alloc: Global, other: &Query) -> Result<KeptQuery, NoMemory>
        requires { self.now.sub ≡ other.now.sub }
        ensures { IfOk result (λ kept. kept ≡ other.now) }
    {
        let sup = other.sup.try_clone(alloc)?;
        Ok(KeptQuery {
            sub: self.sub.clone()?,
            sup,
            on: other.on,
        })
    }
}
