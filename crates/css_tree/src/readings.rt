ghost use Rattle.std.specs.Prelude.{◌≡◌, ◌<◌, ◌≤◌, ◌+◌, ◌^◌, ◌&&◌, pos, ◌<ℤ◌, ◌*ℤ◌, ◌+ℤ◌, Some, None, unsigned_abs};
ghost use Rattle.std.specs.Prelude.{true, if◌then◌else◌};
ghost use Rattle.css_num.specs.Division as division;
ghost use Rattle.css_tree.specs.Trees as trees;

use crate::fault::ClockFault;
use crate::lineage::{gear, parent};
use crate::node::{Gear, Node};
use css_clock::steps::{divisor, factor, less, more};
use css_num::floor_div;

/// The limit of products, either way.
const PRODUCT_LIMIT: u128 = 1 << 126;

/// A number times a factor, where it is below the limit either way.
fn small_product(number: i128, factor: i128) -> Option<i128>
    ensures { result ≡ (if trees.is_small (number *ℤ factor) then Some (number *ℤ factor) else None) }
{
    let product = number.checked_mul(factor)?;
    if product.unsigned_abs() < PRODUCT_LIMIT {
        Some(product)
    } else {
        None
    }
}

/// Whether the ticks fit an `i64`.
pub(crate) fn is_tick(ticks: i128) -> bool
    ensures { result ≡ trees.is_tick ticks }
{
    i128::from(i64::MIN) <= ticks && ticks <= i128::from(i64::MAX)
}

/// The ticks, where they fit.
fn tick(ticks: i128) -> Option<i64>
    ensures { result ≡ (if trees.is_tick ticks then Some ticks else None) }
{
    if is_tick(ticks) {
        Some(ticks as i64)
    } else {
        None
    }
}

/// A product over its divisor, rounded down.
fn quotient(product: i128, divisor: i128) -> i128
    requires positive { pos 0 <ℤ divisor }
    requires small { trees.is_small product ≡ true }
    ensures value { result ≡ division.floor_div product (unsigned_abs divisor) }
    ensures near { unsigned_abs result ≤ 2 ^ 126 }
{
    floor_div(product, divisor)
}

/// What a clock reads where its parent reads `value`.
fn checked_value(id: u32, gear: Gear, value: i64) -> Result<i64, ClockFault>
    ensures { result ≡ trees.checked_value id gear value }
{
    let since = less(i128::from(value), gear.link.parent_ticks);
    let factor = factor(gear.rate, gear.parent_rate, gear.link.speed);
    match small_product(since, factor) {
        None => Err(ClockFault::Beyond(id)),
        Some(product) => {
            let quotient = quotient(product, divisor(gear.rate, gear.parent_rate));
            match tick(more(quotient, gear.link.child_ticks)) {
                None => Err(ClockFault::Beyond(id)),
                Some(ticks) => Ok(ticks),
            }
        }
    }
}

/// What a clock reads where its parent, or itself as a root, reads `value`.
pub(crate) fn checked_step(nodes: &[Node], id: u32, value: i64) -> Result<i64, ClockFault>
    ensures { result ≡ trees.checked_step id (trees.gear_of nodes.now id) value }
{
    match gear(nodes, id) {
        None => Ok(value),
        Some(gear) => checked_value(id, gear, value),
    }
}

/// What a clock reads where its root reads `root`.
pub(crate) fn value_down(nodes: &[Node], id: u32, root: i64) -> Result<i64, ClockFault>
    requires { trees.IsForest nodes.now }
    ensures { result ≡ trees.checked_down nodes.now (trees.lineage nodes.now id) root }
{
    match parent(nodes, id) {
        None => checked_step(nodes, id, root),
        Some(parent) => {
            let above = value_down(nodes, parent, root)?;
            checked_step(nodes, id, above)
        }
    }
}
