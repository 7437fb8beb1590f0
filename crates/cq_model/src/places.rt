//! Where terms stand among the nodes.
use cq_base::Seq;
use cq_flat::Flat;
use cq_tables::Tables;
use cq_theory::Schema;

/// Where the cells and the generators of types stand in the list of nodes.
pub struct Places {
    /// The place of the first cell of each row, by its number in the tables.
    pub firsts: Seq<u64>,
    /// The number of each attribute among those of its entity.
    pub ranks: Seq<u32>,
    /// The place of each generator of a type, by the number of the generator.
    pub generators: Seq<u64>,
}

impl Drop for Places {
    fn drop(self) {
        let Self {
            firsts: _,
            ranks: _,
            generators: _,
        } = self;
    }
}

/// What type terms become nodes over: a schema, the tables of its rows, and where their cells stand among the nodes.
#[derive(Clone, Copy)]
pub struct Ground<'a> {
    pub schema: &'a Schema,
    pub tables: &'a Tables,
    pub places: &'a Places,
}

/// The closure of nodes, and where the cells and the generators of types stand among them.
#[derive(Clone, Copy)]
pub struct ClosedPlaces<'a> {
    pub places: &'a Places,
    pub flat: &'a Flat,
}
