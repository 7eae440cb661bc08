// Constructs of OWL 2 that are left out, since their meaning lies outside of the description logic SHQ.
ghost use Rattle.std.specs.Prelude.{◌≡◌};
ghost use Rattle.ofn_expressions.specs.Constructs.{spelling, excluded_axiom, excluded_class, excluded_role};
ghost use Rattle.ofn_expressions.specs.Constructs.{excluded_role_name};

/// A construct that is left out, named as the OWL 2 functional-style syntax spells it (sections 5 to 9 of the
/// Structural Specification).
#[derive(Clone, Copy, Debug, PartialEq, Eq)]
pub enum Construct {
    Import,
    DisjointObjectProperties,
    InverseObjectProperties,
    InverseFunctionalObjectProperty,
    ReflexiveObjectProperty,
    IrreflexiveObjectProperty,
    SymmetricObjectProperty,
    AsymmetricObjectProperty,
    SubDataPropertyOf,
    EquivalentDataProperties,
    DisjointDataProperties,
    DataPropertyDomain,
    DataPropertyRange,
    FunctionalDataProperty,
    DatatypeDefinition,
    HasKey,
    NegativeObjectPropertyAssertion,
    DataPropertyAssertion,
    NegativeDataPropertyAssertion,
    ObjectOneOf,
    ObjectHasValue,
    ObjectHasSelf,
    DataSomeValuesFrom,
    DataAllValuesFrom,
    DataHasValue,
    DataMinCardinality,
    DataMaxCardinality,
    DataExactCardinality,
    ObjectInverseOf,
    ObjectPropertyChain,
    /// `owl:topObjectProperty`.
    TopObjectProperty,
    /// `owl:bottomObjectProperty`.
    BottomObjectProperty,
    /// An individual without a name of its own, as `_:x`.
    AnonymousIndividual,
}

impl Construct {
    /// How the construct is spelled.
    #[tactic(auto, unfolding(crate::specs::Constructs::spelling))]
    pub fn text(self) -> &'static str
        ensures { result.now ≡ spelling self }
    {
        match self {
            Construct::Import => "Import",
            Construct::DisjointObjectProperties => "DisjointObjectProperties",
            Construct::InverseObjectProperties => "InverseObjectProperties",
            Construct::InverseFunctionalObjectProperty => "InverseFunctionalObjectProperty",
            Construct::ReflexiveObjectProperty => "ReflexiveObjectProperty",
            Construct::IrreflexiveObjectProperty => "IrreflexiveObjectProperty",
            Construct::SymmetricObjectProperty => "SymmetricObjectProperty",
            Construct::AsymmetricObjectProperty => "AsymmetricObjectProperty",
            Construct::SubDataPropertyOf => "SubDataPropertyOf",
            Construct::EquivalentDataProperties => "EquivalentDataProperties",
            Construct::DisjointDataProperties => "DisjointDataProperties",
            Construct::DataPropertyDomain => "DataPropertyDomain",
            Construct::DataPropertyRange => "DataPropertyRange",
            Construct::FunctionalDataProperty => "FunctionalDataProperty",
            Construct::DatatypeDefinition => "DatatypeDefinition",
            Construct::HasKey => "HasKey",
            Construct::NegativeObjectPropertyAssertion => "NegativeObjectPropertyAssertion",
            Construct::DataPropertyAssertion => "DataPropertyAssertion",
            Construct::NegativeDataPropertyAssertion => "NegativeDataPropertyAssertion",
            Construct::ObjectOneOf => "ObjectOneOf",
            Construct::ObjectHasValue => "ObjectHasValue",
            Construct::ObjectHasSelf => "ObjectHasSelf",
            Construct::DataSomeValuesFrom => "DataSomeValuesFrom",
            Construct::DataAllValuesFrom => "DataAllValuesFrom",
            Construct::DataHasValue => "DataHasValue",
            Construct::DataMinCardinality => "DataMinCardinality",
            Construct::DataMaxCardinality => "DataMaxCardinality",
            Construct::DataExactCardinality => "DataExactCardinality",
            Construct::ObjectInverseOf => "ObjectInverseOf",
            Construct::ObjectPropertyChain => "ObjectPropertyChain",
            Construct::TopObjectProperty => "owl:topObjectProperty",
            Construct::BottomObjectProperty => "owl:bottomObjectProperty",
            Construct::AnonymousIndividual => "_:",
        }
    }
}

/// The construct of this name that is left out where an axiom may stand.
#[tactic(auto, unfolding(crate::specs::Constructs::excluded_axiom, crate::specs::Constructs::spelling))]
pub fn excluded_axiom(text: &str) -> Option<Construct>
    ensures { result ≡ excluded_axiom text.now }
{
    match text {
        "Import" => Some(Construct::Import),
        "DisjointObjectProperties" => Some(Construct::DisjointObjectProperties),
        "InverseObjectProperties" => Some(Construct::InverseObjectProperties),
        "InverseFunctionalObjectProperty" => Some(Construct::InverseFunctionalObjectProperty),
        "ReflexiveObjectProperty" => Some(Construct::ReflexiveObjectProperty),
        "IrreflexiveObjectProperty" => Some(Construct::IrreflexiveObjectProperty),
        "SymmetricObjectProperty" => Some(Construct::SymmetricObjectProperty),
        "AsymmetricObjectProperty" => Some(Construct::AsymmetricObjectProperty),
        "SubDataPropertyOf" => Some(Construct::SubDataPropertyOf),
        "EquivalentDataProperties" => Some(Construct::EquivalentDataProperties),
        "DisjointDataProperties" => Some(Construct::DisjointDataProperties),
        "DataPropertyDomain" => Some(Construct::DataPropertyDomain),
        "DataPropertyRange" => Some(Construct::DataPropertyRange),
        "FunctionalDataProperty" => Some(Construct::FunctionalDataProperty),
        "DatatypeDefinition" => Some(Construct::DatatypeDefinition),
        "HasKey" => Some(Construct::HasKey),
        "NegativeObjectPropertyAssertion" => Some(Construct::NegativeObjectPropertyAssertion),
        "DataPropertyAssertion" => Some(Construct::DataPropertyAssertion),
        "NegativeDataPropertyAssertion" => Some(Construct::NegativeDataPropertyAssertion),
        _ => None,
    }
}

/// The construct of this name that is left out where a class expression may stand.
#[tactic(auto, unfolding(crate::specs::Constructs::excluded_class, crate::specs::Constructs::spelling))]
pub(crate) fn excluded_class(text: &str) -> Option<Construct>
    ensures { result ≡ excluded_class text.now }
{
    match text {
        "ObjectOneOf" => Some(Construct::ObjectOneOf),
        "ObjectHasValue" => Some(Construct::ObjectHasValue),
        "ObjectHasSelf" => Some(Construct::ObjectHasSelf),
        "DataSomeValuesFrom" => Some(Construct::DataSomeValuesFrom),
        "DataAllValuesFrom" => Some(Construct::DataAllValuesFrom),
        "DataHasValue" => Some(Construct::DataHasValue),
        "DataMinCardinality" => Some(Construct::DataMinCardinality),
        "DataMaxCardinality" => Some(Construct::DataMaxCardinality),
        "DataExactCardinality" => Some(Construct::DataExactCardinality),
        _ => None,
    }
}

/// The construct of this name that is left out where a role may stand.
#[tactic(auto, unfolding(crate::specs::Constructs::excluded_role, crate::specs::Constructs::spelling))]
pub(crate) fn excluded_role(text: &str) -> Option<Construct>
    ensures { result ≡ excluded_role text.now }
{
    match text {
        "ObjectInverseOf" => Some(Construct::ObjectInverseOf),
        "ObjectPropertyChain" => Some(Construct::ObjectPropertyChain),
        _ => None,
    }
}

/// The role of this IRI that is left out.
#[tactic(auto, unfolding(crate::specs::Constructs::excluded_role_name))]
pub(crate) fn excluded_role_name(iri: &str) -> Option<Construct>
    ensures { result ≡ excluded_role_name iri.now }
{
    match iri {
        "http://www.w3.org/2002/07/owl#topObjectProperty" => Some(Construct::TopObjectProperty),
        "http://www.w3.org/2002/07/owl#bottomObjectProperty" => Some(
            Construct::BottomObjectProperty,
        ),
        _ => None,
    }
}
