// What follows for the taxonomy of an ontology.
ghost use Rattle.classification_jobs.specs.TaxonomyLaws.{HaveOneTaxonomy, HaveOneText};

/// Whatever relation says of each two classes of an ontology whether the one is included in the other, its taxonomy is
/// the same.
pub fn taxonomies_are_unique()
    ensures taxonomy { HaveOneTaxonomy }
    ensures text { HaveOneText }
{}
