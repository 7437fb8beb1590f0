//! Images of paths and terms.
ghost use Rattle.std.specs.Prelude.{◌≡◌, ◌++◌, IfOk, OnOk};
ghost use Rattle.cq_theory.specs.TypeTerm.{substituted};
ghost use Rattle.cq_mapping.specs.Images.{entity_image, key_image, attribute_image, path_image, ent_image, type_image};

use crate::mapping::Mapping;
use cq_base::Seq;
use cq_theory::{Con, EntTerm, Path, TypeTerm, substitute};
use std::alloc::{AllocError, Global};

impl Mapping {
    /// The path with each foreign key replaced by its image.
    pub fn image_path(&self, alloc: Global, path: &[u32]) -> Result<Vec<u32>, AllocError>
        ensures { IfOk result (λ made. made.items ≡ path_image self.now path.now) }
    {
        let mut made = Vec::new(alloc);
        for key in path {
            push_key(self, *key, &mut made)?;
        }
        Ok(made)
    }

    /// The term with each foreign key and each attribute replaced by its image.
    pub fn image_term(&self, alloc: Global, term: &TypeTerm) -> Result<TypeTerm, AllocError>
        ensures { IfOk result (λ made. made ≡ type_image self.now term.now) }
    {
        make_image(alloc, self, term)
    }
}

/// The image of an entity.
pub(crate) fn image_of_entity(mapping: &Mapping, entity: u32) -> u32
    ensures { result ≡ entity_image mapping.now entity }
{
    match mapping.entities.as_slice().get(entity as usize) {
        Some(image) => *image,
        None => 0,
    }
}

/// Appends the path of a foreign key.
fn push_key(mapping: &Mapping, key: u32, made: &mut Vec<u32>) -> Result<(), AllocError>
    ensures { OnOk result (made.new.items ≡ made.old.items ++ key_image mapping.now key) }
{
    match mapping.keys.as_slice().get(key as usize) {
        Some(path) => {
            made.extend_from_slice(path.as_slice())?;
            Ok(())
        }
        None => Ok(()),
    }
}

/// The image of an entity term.
pub(crate) fn image_of_ent(
    alloc: Global,
    mapping: &Mapping,
    term: &EntTerm,
) -> Result<EntTerm, AllocError>
    ensures { IfOk result (λ made. made ≡ ent_image mapping.now term.now) }
{
    let path = mapping.image_path(alloc, term.path.as_slice())?;
    Ok(EntTerm {
        generator: term.generator,
        path: Path::from_vec(path)?,
    })
}

/// The term of an attribute, with `at` in the variable's place.
fn attribute_at(
    alloc: Global,
    mapping: &Mapping,
    attribute: u32,
    at: &EntTerm,
) -> Result<TypeTerm, AllocError>
    ensures { IfOk result (λ made. made ≡ substituted at.now (attribute_image mapping.now attribute)) }
{
    match mapping.attributes.as_slice().get(attribute as usize) {
        Some(term) => {
            let made = substitute(alloc, term, at)?;
            Ok(made)
        }
        None => Ok(TypeTerm::Const(Con::Named(0))),
    }
}

fn make_image(alloc: Global, mapping: &Mapping, term: &TypeTerm) -> Result<TypeTerm, AllocError>
    ensures { IfOk result (λ made. made ≡ type_image mapping.now term.now) }
{
    match term {
        TypeTerm::Gen(n) => Ok(TypeTerm::Gen(*n)),
        TypeTerm::Const(constant) => Ok(TypeTerm::Const(constant.clone()?)),
        TypeTerm::Att(attribute, term) => {
            let at = image_of_ent(alloc, mapping, term)?;
            let made = attribute_at(alloc, mapping, *attribute, &at)?;
            Ok(made)
        }
        TypeTerm::Fun(function, args) => {
            let mut made = Vec::new(alloc);
            for arg in args.as_slice() {
                made.push(make_image(alloc, mapping, arg)?)?;
            }
            Ok(TypeTerm::Fun(*function, Seq::from_vec(made)))
        }
    }
}
