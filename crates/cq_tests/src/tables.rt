//! A plain list of cells, beside which the tables are run.
ghost use Rattle.std.specs.Prelude.{◌≡◌, ◌<◌, true};
ghost use Rattle.cq_tables.specs.Content.{entities_of, keys_of, made_of, live_of};

use cq_tables::Tables;
use std::alloc::Global;
use std::process::Abort;

// Two entities, and two keys between any two of them but one.
const KEYS: [(u32, u32); 5] = [(0, 0), (1, 0), (0, 1), (1, 1), (0, 0)];

// Rows and their filled cells, each by its row and key with the row that it holds.
struct Plain {
    kinds: Vec<u32>,
    alive: Vec<bool>,
    cells: Vec<(u64, u32, u64)>,
}

impl Drop for Plain {
    fn drop(self) {
        let Self {
            kinds: _,
            alive: _,
            cells: _,
        } = self;
    }
}

impl Plain {
    fn new(alloc: Global) -> Plain {
        Plain {
            kinds: Vec::new(alloc),
            alive: Vec::new(alloc),
            cells: Vec::new(alloc),
        }
    }

    fn add_row(&mut self, rt: &impl Abort, entity: u32) {
        self.kinds.push(entity).expect(rt, "memory");
        self.alive.push(true).expect(rt, "memory");
    }

    fn find(&self, row: u64, key: u32) -> Option<u64> {
        for (source, name, target) in &self.cells {
            if *source == row && *name == key {
                return Some(*target);
            }
        }
        None
    }

    fn trace(&self, row: u64, path: &[u32]) -> Option<u64> {
        let mut at = row;
        for key in path {
            at = self.find(at, *key)?;
        }
        Some(at)
    }

    fn count(&self, row: u64) -> u64 {
        let mut count: u64 = 0;
        for (_source, _name, target) in &self.cells {
            if *target == row {
                count = count.saturating_add(1);
            }
        }
        count
    }

    // Leads the cells of one row to another.
    fn lead(&mut self, from: u64, to: u64) {
        for cell in &mut self.cells {
            if cell.2 == from {
                cell.2 = to;
            }
        }
    }

    // Gives a row the cells of another that it has not, and tells where both have other rows.
    fn join(&mut self, rt: &impl Abort, alloc: Global, from: u64, to: u64) -> Vec<(u64, u64)> {
        let mut given = Vec::new(alloc);
        for key in 0..5 {
            match (self.find(to, key), self.find(from, key)) {
                (Some(a), Some(b)) if a != b => given.push((a, b)).expect(rt, "memory"),
                (None, Some(b)) => self.cells.push((to, key, b)).expect(rt, "memory"),
                _ => {}
            }
        }
        given
    }

    fn rename(&mut self, rt: &impl Abort, alloc: Global, from: u64, to: u64) -> Vec<(u64, u64)> {
        self.lead(from, to);
        let given = self.join(rt, alloc, from, to);
        self.cells.retain(|cell| cell.0 != from);
        if let Some(alive) = self.alive.get_mut(from as usize) {
            *alive = false;
        }
        given
    }
}

// The next number of the rule by which the calls are chosen.
fn next(number: u64) -> u64
    requires { number < 65537 }
    ensures { result < 65537 }
{
    (number * 75 + 74) % 65537
}

fn add(rt: &impl Abort, tables: &mut Tables, plain: &mut Plain, entity: u32)
    requires entities { entities_of tables.old ≡ 2 }
    requires entity { entity < 2 }
    ensures entities { entities_of tables.new ≡ entities_of tables.old }
    ensures keys { keys_of tables.new ≡ keys_of tables.old }
{
    tables.add_row(entity).expect(rt, "memory");
    plain.add_row(rt, entity);
}

fn fill(rt: &impl Abort, tables: &mut Tables, plain: &mut Plain, row: u64, key: u32, to: u64)
    requires keys { keys_of tables.old ≡ KEYS }
    requires row { row < made_of tables.old }
    requires to { to < made_of tables.old }
    requires key { key < 5 }
    ensures entities { entities_of tables.new ≡ entities_of tables.old }
    ensures keys { keys_of tables.new ≡ keys_of tables.old }
{
    let (source, target) = KEYS[key as usize];
    if !tables.live(row)
        || !tables.live(to)
        || tables.entity(row) != source
        || tables.entity(to) != target
    {
        return;
    }
    if tables.cell(row, key).is_some() {
        return;
    }
    tables.set_cell(row, key, to).expect(rt, "memory");
    plain.cells.push((row, key, to)).expect(rt, "memory");
}

fn rename(
    rt: &impl Abort,
    alloc: Global,
    tables: &mut Tables,
    plain: &mut Plain,
    from: u64,
    to: u64,
)
    requires from { from < made_of tables.old }
    requires to { to < made_of tables.old }
    ensures entities { entities_of tables.new ≡ entities_of tables.old }
    ensures keys { keys_of tables.new ≡ keys_of tables.old }
{
    if from == to
        || !tables.live(from)
        || !tables.live(to)
        || tables.entity(from) != tables.entity(to)
    {
        return;
    }
    let given = tables.rename(from, to).expect(rt, "memory");
    let expected = plain.rename(rt, alloc, from, to);
    assert_eq!(rt; given.as_slice(), expected.as_slice());
}

fn step(rt: &impl Abort, alloc: Global, tables: &mut Tables, plain: &mut Plain, number: u64)
    requires entities { entities_of tables.old ≡ 2 }
    requires keys { keys_of tables.old ≡ KEYS }
    ensures entities { entities_of tables.new ≡ 2 }
    ensures keys { keys_of tables.new ≡ KEYS }
{
    let made = tables.made();
    if made == 0 || number % 16 == 0 {
        return add(rt, tables, plain, (number / 16 % 2) as u32);
    }
    let row = number / 8 % made;
    let other = number / 64 % made;
    if number % 16 == 15 {
        return rename(rt, alloc, tables, plain, row, other);
    }
    fill(rt, tables, plain, row, (number / 16 % 5) as u32, other)
}

fn compare_cell(rt: &impl Abort, tables: &Tables, plain: &Plain, row: u64, key: u32)
    requires keys { keys_of tables.now ≡ KEYS }
    requires row { row < made_of tables.now }
    requires live { live_of tables.now row ≡ true }
    requires key { key < 5 }
{
    let (source, _target) = KEYS[key as usize];
    if tables.entity(row) == source {
        assert!(rt;
            tables.cell(row, key) == plain.find(row, key),
            "the cell {key} of {row}"
        );
    }
}

// Whether a row is live, of an entity and mentioned as in the plain list.
fn is_listed(tables: &Tables, plain: &Plain, row: u64) -> bool
    requires row { row < made_of tables.now }
{
    plain.alive.get(row as usize).copied() == Some(tables.live(row))
        && plain.kinds.get(row as usize).copied() == Some(tables.entity(row))
        && tables.mentions(row) == plain.count(row)
}

fn compare_path(rt: &impl Abort, tables: &Tables, plain: &Plain, row: u64)
    requires keys { keys_of tables.now ≡ KEYS }
    requires row { row < made_of tables.now }
    requires live { live_of tables.now row ≡ true }
{
    if tables.entity(row) == 0 {
        assert!(rt;
            tables.trace(row, &[4, 2, 1]) == plain.trace(row, &[4, 2, 1]),
            "the path of {row}"
        );
    }
}

fn compare_row(rt: &impl Abort, tables: &Tables, plain: &Plain, row: u64)
    requires keys { keys_of tables.now ≡ KEYS }
    requires row { row < made_of tables.now }
{
    assert!(rt; is_listed(tables, plain, row), "row {row}");
    if !tables.live(row) {
        return;
    }
    for key in 0..5 {
        compare_cell(rt, tables, plain, row, key);
    }
    compare_path(rt, tables, plain, row);
}

fn compare(rt: &impl Abort, tables: &Tables, plain: &Plain)
    requires keys { keys_of tables.now ≡ KEYS }
{
    assert_eq!(rt; tables.made(), plain.kinds.len() as u64);
    for row in 0..tables.made() {
        compare_row(rt, tables, plain, row);
    }
}

// A list of which enough rows were renamed, and enough cells filled.
fn is_telling(plain: &Plain) -> bool {
    let live = plain.alive.iter().filter(|alive| **alive).count();
    live < plain.alive.len() && 20 < plain.cells.len()
}

#[test]
fn tables_are_as_a_plain_list_of_cells(rt: HostRuntime) {
    let mut tables = Tables::new(rt.alloc(), 2, &KEYS).expect(&rt, "memory");
    let mut plain = Plain::new(rt.alloc());
    let mut number = 1;
    for _turn in 0..1000 {
        number = next(number);
        step(&rt, rt.alloc(), &mut tables, &mut plain, number);
        compare(&rt, &tables, &plain);
    }
    assert!(rt;
        is_telling(&plain),
        "no row was renamed, or few cells were filled"
    );
}
