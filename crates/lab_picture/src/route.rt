//! The ways of arrows.

ghost use Rattle.std.specs.Prelude.{◌≡◌, ◌++◌, ◌≤◌, OnOk};
ghost use Rattle.lab_picture.specs.Arrows.{straight_path, down_path, across_path, round_path, weight_text, dash_text, style_text};

use crate::layout::Corner;
use crate::text::put_pixels;
use lab_table::NoMemory;

/// Appends the way of a straight arrow.
#[tactic(auto, unfolding(crate::specs::Arrows::straight_path))]
pub fn put_straight_path(out: &mut Vec<u8>, from: Corner, to: Corner) -> Result<(), NoMemory>
    ensures { OnOk result (out.new.items ≡ out.old.items ++ straight_path from to) }
{
    out.extend_from_slice(b"M")?;
    put_pixels(out, from.x)?;
    out.extend_from_slice(b" ")?;
    put_pixels(out, from.y)?;
    out.extend_from_slice(b" L")?;
    put_pixels(out, to.x)?;
    out.extend_from_slice(b" ")?;
    put_pixels(out, to.y)
}

/// Appends the way from a box to below the boxes.
#[tactic(auto, unfolding(crate::specs::Arrows::down_path))]
fn put_down(out: &mut Vec<u8>, from: Corner, lane: u128) -> Result<(), NoMemory>
    requires { from.x ≤ 1000 }
    ensures { OnOk result (out.new.items ≡ out.old.items ++ down_path from lane) }
{
    out.extend_from_slice(b"M")?;
    put_pixels(out, from.x)?;
    out.extend_from_slice(b" ")?;
    put_pixels(out, from.y)?;
    out.extend_from_slice(b" H")?;
    put_pixels(out, from.x + 6)?;
    out.extend_from_slice(b" V")?;
    put_pixels(out, lane)
}

/// Appends the way from below the boxes to a box, which turns up or down at this distance before it.
#[tactic(auto, unfolding(crate::specs::Arrows::across_path))]
fn put_across(out: &mut Vec<u8>, aside: u128, to: Corner) -> Result<(), NoMemory>
    requires { aside ≤ to.x }
    ensures { OnOk result (out.new.items ≡ out.old.items ++ across_path aside to) }
{
    out.extend_from_slice(b" H")?;
    put_pixels(out, to.x - aside)?;
    out.extend_from_slice(b" V")?;
    put_pixels(out, to.y)?;
    out.extend_from_slice(b" H")?;
    put_pixels(out, to.x)
}

/// Appends the way of an arrow that goes below the boxes.
pub fn put_round_path(
    out: &mut Vec<u8>,
    from: Corner,
    lane: u128,
    aside: u128,
    to: Corner,
) -> Result<(), NoMemory>
    requires { (from.x ≤ 1000) × (aside ≤ to.x) }
    ensures { OnOk result (out.new.items ≡ out.old.items ++ round_path from lane aside to) }
{
    put_down(out, from, lane)?;
    put_across(out, aside, to)
}

/// Appends how thick an arrow is, as an attribute.
#[tactic(auto, unfolding(crate::specs::Arrows::weight_text))]
fn put_weight(out: &mut Vec<u8>, thin: bool) -> Result<(), NoMemory>
    ensures { OnOk result (out.new.items ≡ out.old.items ++ weight_text thin) }
{
    if thin {
        out.extend_from_slice(b" stroke-width=\"0.75\"")
    } else {
        out.extend_from_slice(b" stroke-width=\"1.5\"")
    }
}

/// Appends an arrow's dashes, if it has any, and its head.
#[tactic(auto, unfolding(crate::specs::Arrows::dash_text))]
fn put_dash(out: &mut Vec<u8>, dashed: bool) -> Result<(), NoMemory>
    ensures { OnOk result (out.new.items ≡ out.old.items ++ dash_text dashed) }
{
    if dashed {
        out.extend_from_slice(b" stroke-dasharray=\"5 3\" marker-end=\"url(#p-head)\"/>\n")
    } else {
        out.extend_from_slice(b" marker-end=\"url(#p-head)\"/>\n")
    }
}

/// Appends what stands behind an arrow's way.
#[tactic(auto, unfolding(crate::specs::Arrows::style_text))]
pub fn put_style(out: &mut Vec<u8>, thin: bool, dashed: bool) -> Result<(), NoMemory>
    ensures { OnOk result (out.new.items ≡ out.old.items ++ style_text thin dashed) }
{
    out.extend_from_slice(b"\" fill=\"none\" stroke=\"black\"")?;
    put_weight(out, thin)?;
    put_dash(out, dashed)
}
