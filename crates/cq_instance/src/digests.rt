//! Numbers by which values are placed in tables. They are those of the kit's hasher, fed with a key first, since sums
//! over the bytes of texts, and hashes without a key, are equal for whole families of texts, which would then stand in
//! one list.
ghost use Rattle.std.specs.Prelude.{◌≡◌, fold};
ghost use Rattle.std.specs.Hash.DefaultHasher as sip;
ghost use Rattle.cq_instance.specs.Digests.{fed_constant, fed_value, digest_of, digest_of_application};

use cq_base::{Hashing, Keys};
use cq_theory::{Con, Value};
use std::hash::{BuildHasher, DefaultHasher, Hash, Hasher};

/// Feeds a constant to the hasher.
fn feed_constant(constant: &Con, state: &mut DefaultHasher)
    ensures { state.new ≡ fold sip.write state.old (fed_constant constant.now) }
{
    match constant {
        Con::Named(number) => {
            state.write_u8(0);
            state.write_u32(*number);
        }
        Con::Open(text) => {
            state.write_u8(1);
            text.hash(state);
        }
    }
}

/// Feeds a value to the hasher.
fn feed(value: &Value, state: &mut DefaultHasher)
    ensures { state.new ≡ fold sip.write state.old (fed_value value.now) }
{
    match value {
        Value::Const(constant) => feed_constant(constant, state),
        Value::Null(label) => {
            state.write_u8(2);
            state.write_u64(*label);
        }
        Value::Fun(function, args) => {
            state.write_u8(3);
            state.write_u32(*function);
            for arg in args.as_slice() {
                feed(arg, state);
            }
        }
    }
}

/// Adds values to what the key of a table is made of: of a text the key of its file, any other as it is.
pub(crate) fn add_values(values: &[Value], keys: &mut Keys) {
    for value in values {
        add_value(value, keys);
    }
}

fn add_value(value: &Value, keys: &mut Keys) {
    match value {
        Value::Const(Con::Open(text)) => keys.add(text),
        Value::Const(Con::Named(number)) => keys.add_number(u64::from(*number)),
        Value::Null(label) => keys.add_number(*label),
        Value::Fun(_, _) => keys.add_number(digest(Hashing::new(), value)),
    }
}

/// The number of a value: one for all equal values. Labels of rows that are read together follow one another, so what
/// is kept by these numbers stands together too; nobody can choose labels that fall into one place of a table all the
/// same, since it is the key that says where the 64 labels of a block begin.
pub fn digest(hashing: Hashing, value: &Value) -> u64
    ensures { result ≡ digest_of hashing value.now }
{
    let mut state = hashing.build_hasher();
    match value {
        Value::Null(label) => {
            state.write_u8(2);
            state.write_u64(*label / 64);
            state.finish() / 64 * 64 + *label % 64
        }
        _ => {
            feed(value, &mut state);
            state.finish()
        }
    }
}

/// The number of a function at arguments.
pub(crate) fn application_digest(hashing: Hashing, function: u32, args: &[Value]) -> u64
    ensures { result ≡ digest_of_application hashing function args.now }
{
    let mut state = hashing.build_hasher();
    state.write_u32(function);
    for arg in args {
        feed(arg, &mut state);
    }
    state.finish()
}
