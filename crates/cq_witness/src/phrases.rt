//! The words of which texts are put together.
ghost use Rattle.std.specs.Prelude.{◌≡◌, ◌++◌, OnOk};
ghost use Rattle.cq_witness.specs.Phrases.{words};

use std::alloc::AllocError;

/// Words that stand between what is told.
#[derive(Clone, Copy)]
pub enum Phrase {
    /// Before how many keys a term has that is new.
    StillNew,
    /// Behind that number, and before the term.
    Keys,
    /// Before the keys that a term repeats.
    GoesOn,
    /// Behind these keys.
    Again,
    /// Before the first row that is new.
    SayWhich,
    /// Behind that row, and before a path equation.
    OrEnd,
    /// Behind that row, where no keys are repeated.
    OrDeeper,
    /// Before the last depth at which rows are not too many.
    OfDepth,
    /// Behind that depth.
    ThereAre,
    /// Between a number of rows and their entity.
    RowsOf,
    /// Behind the entity that has most.
    NoneMore,
    /// Before the depth at which rows are too many.
    WithDepth,
    /// Behind that depth, and before the entity that has most.
    TooMany,
    /// Behind that entity.
    Split,
    /// Where the generators alone are too many.
    AtOnce,
    /// Before an equation in a line of its own.
    Indent,
    /// Before two rows.
    TwoRows,
    /// Before two values.
    TwoValues,
    /// Between the two.
    And,
    /// At the end of a line.
    LineEnd,
    /// Before the number of an equation.
    Equation,
    /// Behind that number, and before the instance.
    Of,
    /// Before the instance in which an image is.
    Image,
    /// Behind the instance.
    Colon,
    /// What there is to mend where an equation isn't kept.
    OtherImages,
    /// Before a duty.
    Follow,
}

/// The words.
#[tactic(auto, unfolding(crate::specs::Phrases::words))]
fn text(phrase: Phrase) -> &'static str
    ensures { result.now ≡ words phrase }
{
    match phrase {
        Phrase::StillNew => "Still new with ",
        Phrase::Keys => " keys:\n  ",
        Phrase::GoesOn => "It goes on along ",
        Phrase::Again => ", again and again.\n",
        Phrase::SayWhich => "To mend it: say by an equation which row ",
        Phrase::OrEnd => " is, or end all such rows by a path equation of the schema:\n",
        Phrase::OrDeeper => " is, or ask for a greater depth.\n",
        Phrase::OfDepth => "With terms of depth ",
        Phrase::ThereAre => " there are ",
        Phrase::RowsOf => " rows of ",
        Phrase::NoneMore => ", and of no entity more.\n",
        Phrase::WithDepth => "With depth ",
        Phrase::TooMany =>
            " there are over 200000 rows in all.\nTo mend it: say by equations where the keys of ",
        Phrase::Split => " lead, so that fewer rows are new, or split the instance.\n",
        Phrase::AtOnce =>
            "The generators alone are over 200000 rows.\nTo mend it: split the instance.\n",
        Phrase::Indent => "  ",
        Phrase::TwoRows => "  two rows: ",
        Phrase::TwoValues => "  two values: ",
        Phrase::And => " and ",
        Phrase::LineEnd => "\n",
        Phrase::Equation => "Equation ",
        Phrase::Of => " of ",
        Phrase::Image => "Its image in ",
        Phrase::Colon => ": ",
        Phrase::OtherImages =>
            "To mend it: give its generators other images, or state the image in that instance.\n",
        Phrase::Follow => "It would have to follow that ",
    }
}

/// Appends words.
pub fn append_phrase(out: &mut Vec<u8>, phrase: Phrase) -> Result<(), AllocError>
    ensures { OnOk result (out.new.items ≡ out.old.items ++ words phrase) }
{
    out.extend_from_slice(text(phrase).as_bytes())?;
    Ok(())
}
