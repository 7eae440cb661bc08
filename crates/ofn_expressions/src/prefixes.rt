// Prefix names, and the IRIs that they stand for.
ghost use Rattle.std.specs.Prelude.{◌≡◌, ◌∷◌, ◌++◌, [], IfOk, OnOk, OnErr, option_map, None, map, string_bytes};
ghost use Rattle.ofn_expressions.specs.Names.{predeclared, prefix_iri, entry, with_last};

use indexmap::IndexMap;
use shq_terms::NoMemory;
use std::alloc::Global;
use std::marker::Model;

/// Prefix names, each once and without its colon, in the order of their declarations, with their IRIs.
///
/// A document begins with `rdf:`, `rdfs:`, `xsd:` and `owl:` (table 2 of the OWL 2 Structural Specification).
#[derive(Drop)]
pub struct Prefixes {
    alloc: Global,
    entries: IndexMap<String, String>,
}

impl Model for Prefixes {
    ghost use Rattle.std.specs.Prelude.{List, map};
    ghost use Rattle.ofn_expressions.specs.Names.{Prefix, entry};

    ghost Value = { List Prefix };

    ghost view = { λ p. map entry p.entries.entries };
}

impl Prefixes {
    /// The prefixes that every document begins with.
    ///
    /// # Errors
    ///
    /// Out of memory.
    #[tactic(auto, unfolding(crate::specs::Names::predeclared))]
    pub fn predeclared(alloc: Global) -> Result<Prefixes, NoMemory>
        ensures { IfOk result (λ prefixes. prefixes ≡ predeclared) }
    {
        let mut prefixes = Prefixes {
            alloc,
            entries: IndexMap::new(alloc),
        };
        prefixes.declare("rdf", "http://www.w3.org/1999/02/22-rdf-syntax-ns#")?;
        prefixes.declare("rdfs", "http://www.w3.org/2000/01/rdf-schema#")?;
        prefixes.declare("xsd", "http://www.w3.org/2001/XMLSchema#")?;
        prefixes.declare("owl", "http://www.w3.org/2002/07/owl#")?;
        Ok(prefixes)
    }

    /// The IRI of a prefix name, which is given without its colon. `None` where it is not declared.
    pub fn iri(&self, name: &str) -> Option<&str>
        ensures { option_map (λ iri. iri.now) result ≡ prefix_iri self.now name.now }
    {
        match self.entries.get(name) {
            Some(iri) => Some(iri.as_str()),
            None => None,
        }
    }

    /// Puts a prefix name last that is not declared.
    ///
    /// # Errors
    ///
    /// Out of memory. The prefixes are then as before.
    pub fn declare(&mut self, name: &str, iri: &str) -> Result<(), NoMemory>
        requires { prefix_iri self.old name.now ≡ None }
        ensures declared { OnOk result (self.new ≡ self.old ++ record { name = name.now; iri = iri.now } ∷ []) }
        ensures unchanged { OnErr result (self.new ≡ self.old) }
    {
        let name = String::from_str(self.alloc, name)?;
        let iri = String::from_str(self.alloc, iri)?;
        insert_new(&mut self.entries, name, iri)
    }
}

// Puts a new name last, or changes nothing.
fn insert_new(
    entries: &mut IndexMap<String, String>,
    name: String,
    iri: String,
) -> Result<(), NoMemory>
    requires { prefix_iri (map entry entries.old.entries) (string_bytes name) ≡ None }
    ensures pushed { OnOk result (map entry entries.new.entries ≡ with_last entries.old.entries name iri) }
    ensures unchanged { OnErr result (entries.new.entries ≡ entries.old.entries) }
{
    entries.insert(name, iri)?;
    Ok(())
}
