//! The limit on the symbols of images.
ghost use Rattle.std.specs.Prelude.{◌≡◌};
ghost use Rattle.cq_transform.specs.Composing.{is_long as is_over};

use cq_instance::Image;
use cq_theory::{is_long_entity, is_long_type};

/// Whether an image has over 1,024 symbols.
pub fn is_long(image: &Image) -> bool
    ensures { result ≡ is_over image.now }
{
    match image {
        Image::Row(term) => is_long_entity(term),
        Image::Value(term) => is_long_type(term),
    }
}
