//! What parts stand at: one place, or one for each of several parts.
ghost use Rattle.std.specs.Prelude.{◌≡◌, ◌++◌, List, OnOk, map};
ghost use Rattle.std.specs.List.{flat_map};
ghost use Rattle.cq_base.specs.declared.place.Place.{Place};
ghost use Rattle.cq_parts.specs.Parts as parts;

use cq_base::Place;
use cq_syntax::{
    AttImage, Bind, EdgeSyn, EqSyn, FunSyn, GroupSyn, KeyImage, MapBlock, ObsSyn, PairSyn,
    PathEqSyn, QueryBlock, QueryKey, Spot,
};
use std::alloc::AllocError;

/// What is one part.
pub trait HasPlace {
    ghost place_of: { Self → Place };

    /// Where it stands.
    fn place(&self) -> Place
        ensures { result ≡ place_of self.now };
}

/// What has parts of its own.
pub trait HasPlaces {
    ghost places_of: { Self → List Place };

    /// Where each of them stands.
    fn push_places(&self, places: &mut Vec<Place>) -> Result<(), AllocError>
        ensures { OnOk result (places.new.items ≡ places.old.items ++ places_of self.now) };
}

/// The place of each.
pub fn push_each<P: HasPlace>(places: &mut Vec<Place>, parts: &[P]) -> Result<(), AllocError>
    ensures { OnOk result (places.new.items ≡ places.old.items ++ map P.place_of parts.now) }
{
    for part in parts {
        places.push(part.place())?;
    }
    Ok(())
}

/// The places of the parts of each.
pub fn push_all<G: HasPlaces>(places: &mut Vec<Place>, groups: &[G]) -> Result<(), AllocError>
    ensures { OnOk result (places.new.items ≡ places.old.items ++ flat_map G.places_of groups.now) }
{
    for group in groups {
        group.push_places(places)?;
    }
    Ok(())
}

impl HasPlace for Spot {
    ghost place_of = { λ spot. spot.place };

    fn place(&self) -> Place {
        self.place
    }
}

impl HasPlace for PathEqSyn {
    ghost place_of = { parts.path_eq_place };

    fn place(&self) -> Place {
        self.left.place
    }
}

impl HasPlace for ObsSyn {
    ghost place_of = { λ e. e.place };

    fn place(&self) -> Place {
        self.place
    }
}

impl HasPlace for EqSyn {
    ghost place_of = { parts.equation_place };

    fn place(&self) -> Place {
        self.left.place
    }
}

impl HasPlace for PairSyn {
    ghost place_of = { λ p. p.place };

    fn place(&self) -> Place {
        self.place
    }
}

impl HasPlace for Bind {
    ghost place_of = { λ b. b.place };

    fn place(&self) -> Place {
        self.place
    }
}

impl HasPlace for KeyImage {
    ghost place_of = { λ k. k.place };

    fn place(&self) -> Place {
        self.place
    }
}

impl HasPlace for AttImage {
    ghost place_of = { λ a. a.place };

    fn place(&self) -> Place {
        self.place
    }
}

impl HasPlace for MapBlock {
    ghost place_of = { λ b. b.place };

    fn place(&self) -> Place {
        self.place
    }
}

impl HasPlace for QueryBlock {
    ghost place_of = { λ b. b.place };

    fn place(&self) -> Place {
        self.place
    }
}

impl HasPlaces for GroupSyn {
    ghost places_of = { parts.group_places };

    fn push_places(&self, places: &mut Vec<Place>) -> Result<(), AllocError> {
        push_each(places, self.names.as_slice())
    }
}

impl HasPlaces for FunSyn {
    ghost places_of = { parts.function_places };

    fn push_places(&self, places: &mut Vec<Place>) -> Result<(), AllocError> {
        push_each(places, self.names.as_slice())
    }
}

impl HasPlaces for EdgeSyn {
    ghost places_of = { parts.edge_places };

    fn push_places(&self, places: &mut Vec<Place>) -> Result<(), AllocError> {
        push_each(places, self.names.as_slice())
    }
}

impl HasPlaces for MapBlock {
    ghost places_of = { parts.arrow_places };

    fn push_places(&self, places: &mut Vec<Place>) -> Result<(), AllocError> {
        push_each(places, self.keys.as_slice())?;
        push_each(places, self.attributes.as_slice())
    }
}

impl HasPlaces for QueryKey {
    ghost places_of = { parts.key_places };

    fn push_places(&self, places: &mut Vec<Place>) -> Result<(), AllocError> {
        places.push(self.place)?;
        push_each(places, self.assigns.as_slice())
    }
}
