//! Function texts of three inputs.
ghost use Rattle.std.specs.Prelude.{◌≡◌, ◌++◌, ◌<◌, IfOk, OnOk, if◌then◌else◌};
ghost use Rattle.selftest_cells.specs.Sums.{literal, product as product_of, plus, function_text as function_text_of};

use std::alloc::{AllocError, Global};

/// Appends a name where the bit is 1, else its inverse.
fn push_literal(out: &mut Vec<u8>, name: u8, bit: u64) -> Result<(), AllocError>
    ensures { OnOk result (out.new.items ≡ out.old.items ++ literal name bit) }
{
    if bit != 1 {
        out.push(b'!')?;
    }
    out.push(name)?;
    Ok(())
}

/// Appends the product that is 1 at the point with this number alone.
#[tactic(auto, unfolding(crate::specs::Sums::product))]
fn push_product(out: &mut Vec<u8>, point: u64) -> Result<(), AllocError>
    ensures { OnOk result (out.new.items ≡ out.old.items ++ product_of point) }
{
    push_literal(out, b'A', point % 2)?;
    out.push(b'*')?;
    push_literal(out, b'B', point / 2 % 2)?;
    out.push(b'*')?;
    push_literal(out, b'C', point / 4 % 2)
}

/// Appends one more product to a sum.
fn add_product(sum: &mut Vec<u8>, point: u64) -> Result<(), AllocError>
    ensures { OnOk result (sum.new.items ≡ plus sum.old.items (product_of point)) }
{
    if !sum.is_empty() {
        sum.push(b'+')?;
    }
    push_product(sum, point)
}

/// The text of the function of the inputs A, B and C that is 1 at the points whose bits are set in a number: a sum of products.
/// An `Err` comes only where memory is wanting.
#[tactic(auto, unfolding(crate::specs::Sums::function_text))]
pub(crate) fn function_text(alloc: Global, number: u64) -> Result<Vec<u8>, AllocError>
    ensures { IfOk result (λ text. text.items ≡ function_text_of number) }
{
    let mut sum = Vec::new(alloc);
    let mut bits = number;
    for point in 0..8 {
        if bits % 2 == 1 {
            add_product(&mut sum, point)?;
        }
        bits /= 2;
    }
    if sum.is_empty() {
        sum.push(b'0')?;
    }
    Ok(sum)
}
