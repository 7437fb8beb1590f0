//! The limit on the symbols of images.
ghost use Rattle.std.specs.Prelude.{◌≡◌, ◌++◌, ◌∷◌, [], true, false, IfErr, OnOk};
ghost use Rattle.cq_move.specs.Pulling.{TellsSize};
ghost use Rattle.cq_transform.specs.Composing.{is_long as is_over};

use cq_instance::Image;
use cq_theory::SizeRefusal;
use cq_transform::is_long;

/// Puts an image behind others, if it has at most 1,024 symbols.
pub(crate) fn push_image(image: Image, made: &mut Vec<Image>) -> Result<(), SizeRefusal>
    ensures made { OnOk result (made.new.items ≡ made.old.items ++ image ∷ []) }
    ensures fits { OnOk result (is_over image ≡ false) }
    ensures refused { IfErr result (TellsSize (is_over image)) }
{
    if is_long(&image) {
        return Err(SizeRefusal::TooLarge);
    }
    match made.push(image) {
        Ok(()) => Ok(()),
        Err(_) => Err(SizeRefusal::Memory),
    }
}
