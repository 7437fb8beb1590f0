//! The key by which the terms of a presentation are hashed.
use cq_base::Hashing;
use cq_theory::{Con, EntTerm, Equation, Presentation, TypeTerm};
use std::hash::{DefaultHasher, Hash, Hasher};

/// How tables of the terms of a presentation are to hash: by a key of all its equations, whatever files they come from.
pub fn hashing_of(presentation: &Presentation) -> Hashing {
    let mut state = DefaultHasher::new();
    for equation in presentation.equations.as_slice() {
        feed_equation(equation, &mut state);
    }
    Hashing::of_state(&state)
}

fn feed_equation(equation: &Equation, state: &mut DefaultHasher) {
    match equation {
        Equation::Ent(left, right) => {
            feed_entity_term(left, state);
            feed_entity_term(right, state);
        }
        Equation::Typ(left, right) => {
            feed_type_term(left, state);
            feed_type_term(right, state);
        }
    }
}

fn feed_entity_term(term: &EntTerm, state: &mut DefaultHasher) {
    state.write_u32(term.generator);
    term.path.as_slice().hash(state);
}

fn feed_type_term(term: &TypeTerm, state: &mut DefaultHasher) {
    match term {
        TypeTerm::Gen(number) => state.write_u32(*number),
        TypeTerm::Const(Con::Named(number)) => state.write_u32(*number),
        TypeTerm::Const(Con::Open(text)) => text.hash(state),
        TypeTerm::Att(attribute, at) => {
            state.write_u32(*attribute);
            feed_entity_term(at, state);
        }
        TypeTerm::Fun(function, arguments) => {
            state.write_u32(*function);
            for argument in arguments.as_slice() {
                feed_type_term(argument, state);
            }
        }
    }
}
