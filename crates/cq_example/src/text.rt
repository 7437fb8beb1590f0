//! The text of the example.
ghost use Rattle.std.specs.Prelude.{◌≡◌, ◌≤◌, ◌^◌, length, IfOk};
ghost use Rattle.cq_example.specs.Text.{text_of};

use crate::lines::{push_equations, push_generators};
use std::alloc::{AllocError, Global};

/// The declarations before the generators.
const HEAD: &str = "typeside T = literal { types n constants one : n }
schema S = literal : T { entities E foreign_keys f : E -> E path_equations f.f = f attributes v : E -> n }
schema R = literal : T { entities P attributes w : P -> n }
query Q = literal : S -> R { entity P -> { from b : E a : E where f(a) = b attributes w -> v(a) } }
instance I = literal : S { generators
";

/// The most bytes of the line of a generator and that of an equation together.
const LINES_LENGTH: usize = 36;

/// The most bytes of the other lines.
const REST_LENGTH: usize = 512;

/// The text of the example of a size from 1 to 199,999: an instance I of so many generators whose keys are all made
/// equal, and the instance J of the answers of a query that joins I with itself along that key. The text is under
/// 8 MiB. The only refusal is want of memory.
pub fn example_text(alloc: Global, size: u32) -> Result<Vec<u8>, AllocError>
    requires some { 1 ≤ size }
    requires most { size ≤ 199999 }
    ensures text { IfOk result (λ text. text.items ≡ text_of size) }
    ensures short { IfOk result (λ text. length text.items ≤ 2 ^ 23) }
{
    let mut text = Vec::with_capacity(alloc, LINES_LENGTH * size as usize + REST_LENGTH)?;
    text.extend_from_slice(HEAD.as_bytes())?;
    push_generators(size, &mut text)?;
    text.extend_from_slice(b"equations\nv(f(x1)) = one\n")?;
    push_equations(size - 1, &mut text)?;
    text.extend_from_slice(b"}\ninstance J = eval Q I\n")?;
    Ok(text)
}
