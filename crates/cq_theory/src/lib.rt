//! Typesides, schemas, presentations, terms and values.
//!
//! `beginnings` lists what begins at each entity of a schema, its foreign keys, attributes, path equations and
//! observation equations (`groups`), and the place of each among those of its entity. A call that goes over rows has
//! such lists made once, so that no row is asked for the equations of another entity.
//!
//! `lookup` makes theories of names. It tries rule after rule (`faults`), and also gives its tests of single rules
//! (`has_unknown`, `has_wrong_count`, `sort_of_raw`, `is_too_large`, `has_unknown_name`) and what is made of names
//! (`build`, `path_keys`), each equal to its definition, for the constructors of mappings and queries, whose rules are
//! these with other ends. A term is made with its sort in one walk (`typed`), and the rules are asked for one by one
//! only where there is no sort. `ArrowRefusal`, `SizeRefusal` and the parts of mappings stand here too, so that
//! mappings and queries share them without standing on one another.
//!
//! Where terms go along, as under a mapping, a query or a transform, the definition is one (`specs/Carried`), and each
//! crate says where generators and attributes go; so it is with values as terms (`specs/ValueTerms`), where each crate
//! says which generators the nulls have.
#![tactic(auto)]

pub mod beginnings;
pub mod constant;
pub mod groups;
pub mod laws;
pub mod lookup;
pub mod parts;
pub mod path;
pub mod presentation;
pub mod refusal;
pub mod route;
pub mod schema;
pub mod sizes;
pub mod term;
pub mod typeside;
pub mod value;
pub mod value_text;

pub use beginnings::{
    Beginnings, attributes_by_entity, keys_by_entity, observation_equations_by_entity,
    path_equations_by_entity,
};
pub use constant::{Con, is_reserved};
pub use groups::{Groups, empty_groups, sealed};
pub use lookup::{Symbol, resolve};
pub use parts::{
    ArrowImage, ArrowPart, ColimitParts, MappingParts, ObsPart, PresentationParts, SchemaParts,
    TypesideParts,
};
pub use path::Path;
pub use presentation::{Equation, MOST_GENERATORS, Presentation, Sort};
pub use refusal::{ArrowRefusal, SizeRefusal, TermRefusal, TheoryRefusal};
pub use route::{Route, resolve_path};
pub use schema::{Edge, ObsEq, PathEq, Schema};
pub use sizes::{has_long_sides, is_long_entity, is_long_type, is_long_value};
pub use term::{EntTerm, Term, TypeTerm, alone, depth, ent_symbols, extend, substitute, symbols};
pub use typeside::{Fun, Typeside};
pub use value::{Algebra, Entry, Sheet, Value, value_symbols};
