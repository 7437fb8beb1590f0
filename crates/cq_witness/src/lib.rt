//! What is told of rows and equations by which a declaration is refused.
//!
//! `depth` tells a term that is still new at a depth, the keys by which it goes on, and what would end it (`paths`:
//! paths from a row that goes by its entity's name). `rows` tells how many rows an entity has before they are too many.
//! `broken` tells an equation that images don't keep, its image (`images`), and the two rows or values to which the
//! image's sides lead (`sides`). `phrases` has the words between what is told, and `terms` appends terms.
#![tactic(auto)]

mod broken;
mod depth;
mod images;
mod paths;
pub mod phrases;
mod rows;
mod sides;
mod terms;

pub use broken::{Ends, append_broken};
pub use depth::append_depth;
pub use paths::over;
pub use phrases::{Phrase, append_phrase};
pub use rows::append_rows;
pub use sides::append_sides;
