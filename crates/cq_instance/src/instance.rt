//! Instances, and what is read from them.
ghost use Rattle.std.specs.Prelude.{◌≡◌, ◌<◌, true, false, map, length, IfSome, slice_get};
ghost use Rattle.cq_theory.specs.Tables.{count_of, key_at, cell_at};
ghost use Rattle.cq_instance.specs.InstanceData.{IsInstance, name_at};
ghost use Rattle.cq_instance.specs.Standing.{meaning};

use crate::entries::EntryTable;
use crate::standing::Standing;
use cq_base::Seq;
use cq_theory::{Algebra, EntTerm, Presentation, Schema, Sheet, Value};
use std::marker::Model;
use std::rc::Rc;

/// A model of a presentation over a schema: the rows of each entity with their least names, the columns of
/// foreign keys and attributes, the nulls and the entries of functions, what each generator stands for, and whether it
/// is an instance of given tables.
pub struct Instance {
    schema: Rc<Schema>,
    presentation: Presentation,
    names: Seq<Seq<EntTerm>>,
    sheet: Sheet,
    algebra: EntryTable,
    standings: Seq<Standing>,
    given: bool,
}

impl Model for Instance {
    ghost use Rattle.std.specs.Coded.{codes};
    ghost use Rattle.cq_theory.specs.contracts.term.TypeTerm as type_term;
    ghost use Rattle.cq_theory.specs.contracts.value.Value as value;
    ghost use Rattle.std.specs.Prelude.{map};
    ghost use Rattle.cq_instance.specs.InstanceData.{InstanceData, IsInstance};
    ghost use Rattle.cq_instance.specs.Standing.{meaning};

    ghost Value = { InstanceData };

    ghost coded = { Prim.hlevel (codes, type_term.the_row.coded, value.the_row.coded) };

    ghost view = { λ i. record {
      schema = i.schema.value;
      presentation = i.presentation;
      names = i.names;
      tables = record { sheet = i.sheet; algebra = i.algebra };
      assignment = map meaning i.standings;
      given = i.given;
    } };

    ghost invariant = { λ i. IsInstance (record {
      schema = i.schema.value;
      presentation = i.presentation;
      names = i.names;
      tables = record { sheet = i.sheet; algebra = i.algebra };
      assignment = map meaning i.standings;
      given = i.given;
    }) };
}

impl Drop for Instance {
    fn drop(self) {
        let Self {
            schema: _,
            presentation: _,
            names: _,
            sheet: _,
            algebra: _,
            standings: _,
            given: _,
        } = self;
    }
}

impl Instance {
    /// The instance of these parts, which were made of its presentation.
    pub fn from_parts(
        schema: Rc<Schema>,
        presentation: Presentation,
        names: Seq<Seq<EntTerm>>,
        sheet: Sheet,
        algebra: EntryTable,
        standings: Seq<Standing>,
    ) -> Instance
        requires { IsInstance (record {
          schema = schema.value;
          presentation = presentation;
          names = names;
          tables = record { sheet = sheet; algebra = algebra };
          assignment = map meaning standings;
          given = false;
        }) }
        ensures { result ≡ record {
          schema = schema.value;
          presentation = presentation;
          names = names;
          tables = record { sheet = sheet; algebra = algebra };
          assignment = map meaning standings;
          given = false;
        } }
    {
        Instance {
            schema,
            presentation,
            names,
            sheet,
            algebra,
            standings,
            given: false,
        }
    }

    /// The instance of these parts, which were made of its tables.
    pub(crate) fn from_given(
        schema: Rc<Schema>,
        presentation: Presentation,
        names: Seq<Seq<EntTerm>>,
        sheet: Sheet,
        algebra: EntryTable,
        standings: Seq<Standing>,
    ) -> Instance
        requires { IsInstance (record {
          schema = schema.value;
          presentation = presentation;
          names = names;
          tables = record { sheet = sheet; algebra = algebra };
          assignment = map meaning standings;
          given = true;
        }) }
        ensures { result ≡ record {
          schema = schema.value;
          presentation = presentation;
          names = names;
          tables = record { sheet = sheet; algebra = algebra };
          assignment = map meaning standings;
          given = true;
        } }
    {
        Instance {
            schema,
            presentation,
            names,
            sheet,
            algebra,
            standings,
            given: true,
        }
    }

    /// Every instance is well formed and satisfies its schema. The call does nothing.
    pub fn is_instance(&self)
        ensures { IsInstance self.now }
    {
        let _sheet = &self.sheet;
    }

    /// The schema.
    pub fn schema(&self) -> &Rc<Schema>
        ensures schema { result.now.value ≡ self.now.schema }
        ensures instance { IsInstance self.now }
    {
        &self.schema
    }

    /// The presentation of which this is a model.
    pub fn presentation(&self) -> &Presentation
        ensures presentation { result.now ≡ self.now.presentation }
        ensures instance { IsInstance self.now }
    {
        &self.presentation
    }

    /// The number of rows of each entity and the columns.
    pub fn sheet(&self) -> &Sheet
        ensures sheet { result.now ≡ self.now.tables.sheet }
        ensures instance { IsInstance self.now }
    {
        &self.sheet
    }

    /// The nulls with their types, and the entries of functions.
    pub fn algebra(&self) -> &Algebra
        ensures algebra { result.now ≡ self.now.tables.algebra }
        ensures instance { IsInstance self.now }
    {
        self.algebra.algebra()
    }

    /// Whether this is an instance of given tables, whose presentation was made of them.
    pub(crate) fn is_given(&self) -> bool
        ensures given { result ≡ self.now.given }
        ensures instance { IsInstance self.now }
    {
        self.given
    }

    /// The number of rows of an entity.
    pub fn count(&self, entity: u32) -> u32
        requires { entity < length self.now.schema.entities }
        ensures { result ≡ count_of self.now.tables entity }
    {
        self.sheet.counts.as_slice()[entity as usize]
    }

    /// The row to which a foreign key leads from a row of its entity.
    pub fn key(&self, key: u32, row: u32) -> u32
        requires key { key < length self.now.schema.keys }
        requires row { IfSome (slice_get self.now.schema.keys key) (λ edge. row < count_of self.now.tables edge.from) }
        ensures { result ≡ key_at self.now.tables key row }
    {
        let column = &self.sheet.keys.as_slice()[key as usize];
        column.as_slice()[row as usize]
    }

    /// The value of an attribute at a row of its entity.
    pub fn cell(&self, attribute: u32, row: u32) -> &Value
        requires attribute { attribute < length self.now.schema.attributes }
        requires row { IfSome (slice_get self.now.schema.attributes attribute)
            (λ edge. row < count_of self.now.tables edge.from) }
        ensures { result.now ≡ cell_at self.now.tables attribute row }
    {
        let column = &self.sheet.cells.as_slice()[attribute as usize];
        &column.as_slice()[row as usize]
    }

    /// The least term that names a row of an entity.
    pub fn name_of(&self, entity: u32, row: u32) -> &EntTerm
        requires entity { entity < length self.now.schema.entities }
        requires row { row < count_of self.now.tables entity }
        ensures { result.now ≡ name_at self.now.names entity row }
    {
        let names = &self.names.as_slice()[entity as usize];
        &names.as_slice()[row as usize]
    }

    /// The entries of functions, by which these are applied.
    pub(crate) fn entry_table(&self) -> &EntryTable
        ensures table { result.now ≡ self.now.tables.algebra }
        ensures instance { IsInstance self.now }
    {
        &self.algebra
    }

    /// What each generator stands for.
    pub(crate) fn standings(&self) -> &[Standing]
        ensures standings { map meaning result.now ≡ self.now.assignment }
        ensures instance { IsInstance self.now }
    {
        self.standings.as_slice()
    }
}
