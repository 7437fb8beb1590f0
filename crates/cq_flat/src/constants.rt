//! The constants of classes.
ghost use Rattle.std.specs.Prelude.{◌≡◌, ◌<◌, ◌^◌, length, All, IfOk, Some, option_map};
ghost use Rattle.std.specs.Ordering.{is_gt, ordering_then};
ghost use Rattle.cq_theory.specs.Constant.{con_cmp};
ghost use Rattle.cq_flat.specs.Constants.{AreLeast, IsExcess, constant_at, constants_at};
ghost use Rattle.cq_flat.specs.Constants.{lesser, is_replaced, lesser_clash};

use crate::node::Node;
use cq_theory::Con;
use std::alloc::{AllocError, Global};
use std::cmp::Ordering;

/// The node of the least constant of each class. Where a class has none it is no node.
pub fn least_constants(
    alloc: Global,
    nodes: &[Node],
    classes: &[u32],
) -> Result<Vec<u32>, AllocError>
    requires few { length nodes.now < 2 ^ 32 }
    requires count { length classes.now ≡ length nodes.now }
    requires within { All (λ class. class < length nodes.now) classes.now }
    ensures { IfOk result (λ least. AreLeast nodes.now classes.now (length nodes.now)
        (constants_at nodes.now least.items)) }
{
    let mut least = vec![in alloc; nodes.len() as u32; nodes.len()]?;
    for (node, content) in nodes.iter().enumerate() {
        if let Node::Const(constant) = content {
            let class = classes[node];
            least[class as usize] = lesser_of(nodes, least[class as usize], node as u32, constant);
        }
    }
    Ok(least)
}

/// The constant of a node, if the number is that of a constant.
pub fn constant_at(nodes: &[Node], place: u32) -> Option<&Con>
    ensures { option_map (λ constant. constant.now) result ≡ constant_at nodes.now place }
{
    match nodes.get(place as usize) {
        Some(Node::Const(constant)) => Some(constant),
        _ => None,
    }
}

// The node of the lesser one of two constants, of which the first may be missing.
fn lesser_of(nodes: &[Node], other: u32, node: u32, constant: &Con) -> u32
    requires { constant_at nodes.now node ≡ Some constant.now }
    ensures { constant_at nodes.now result ≡ Some (lesser (constant_at nodes.now other) constant.now) }
{
    match constant_at(nodes, other) {
        Some(least) => {
            if least.cmp(constant).is_gt() {
                node
            } else {
                other
            }
        }
        None => node,
    }
}

/// The least constant that is in a class with a greater one, and the least such greater one.
pub fn clash_of(
    nodes: &[Node],
    classes: &[u32],
    least: &[u32],
) -> Result<Option<(Con, Con)>, AllocError>
    requires count { length classes.now ≡ length nodes.now }
    requires least { length least.now ≡ length nodes.now }
    requires within { All (λ class. class < length nodes.now) classes.now }
    ensures { IfOk result (IsExcess nodes.now classes.now (constants_at nodes.now least.now) (length nodes.now)) }
{
    let mut clash = None;
    for (node, content) in nodes.iter().enumerate() {
        if let Node::Const(constant) = content {
            let least = constant_at(nodes, least[classes[node] as usize]);
            clash = lesser_clash(clash, least, constant)?;
        }
    }
    Ok(clash)
}

fn lesser_clash(
    clash: Option<(Con, Con)>,
    least: Option<&Con>,
    constant: &Con,
) -> Result<Option<(Con, Con)>, AllocError>
    ensures { IfOk result (λ made. made ≡ lesser_clash clash (option_map (λ c. c.now) least.entry) constant.now) }
{
    let Some(least) = least else { return Ok(clash) };
    if constant.cmp(least).is_gt() && is_replaced(&clash, least, constant) {
        return Ok(Some((least.clone()?, constant.clone()?)));
    }
    Ok(clash)
}

// Whether there is no pair so far, or a greater one.
fn is_replaced(clash: &Option<(Con, Con)>, least: &Con, constant: &Con) -> bool
    ensures { result ≡ is_replaced clash.now least.now constant.now }
{
    match clash {
        Some(pair) => is_greater_pair(pair, least, constant),
        None => true,
    }
}

fn is_greater_pair(pair: &(Con, Con), least: &Con, constant: &Con) -> bool
    ensures { result ≡ is_gt (ordering_then (con_cmp pair.now.0 least.now) (con_cmp pair.now.1 constant.now)) }
{
    match pair.0.cmp(least) {
        Ordering::Less => false,
        Ordering::Equal => pair.1.cmp(constant).is_gt(),
        Ordering::Greater => true,
    }
}
