// The calls that come to a list. What is lent begins as +0.
use crate::{lines, lists};
use stream::{Page, Reader};
use vectors::vector;

// 6 product n [H] [d], and the length of the lent output
pub fn product(input: &mut Reader<'_>, page: &mut Page<'_>) -> Option<()> {
    let mut h = [0.0; 8192];
    let mut d = [0.0; 8192];
    let mut out = [0.0; 8704];
    let n = lists::size(input)?;
    let h = lists::list(input, &mut h)?;
    let d = lists::list(input, &mut d)?;
    let out = lists::lent(input, &mut out)?;
    let found = vector::product(n, h, d, out);
    lines::outcome(page, found, out);
    Some(())
}

// 7 inverse n [H], and the lengths of the lent output and scratch
pub fn inverse(input: &mut Reader<'_>, page: &mut Page<'_>) -> Option<()> {
    let mut h = [0.0; 8192];
    let mut out = [0.0; 8704];
    let mut scratch = [0.0; 8704];
    let n = lists::size(input)?;
    let h = lists::list(input, &mut h)?;
    let out = lists::lent(input, &mut out)?;
    let scratch = lists::lent(input, &mut scratch)?;
    let found = kernels::inverse::inverse(n, h, out, scratch);
    lines::outcome(page, found, out);
    Some(())
}

// 8 row n [H] i
pub fn row(input: &mut Reader<'_>, page: &mut Page<'_>) -> Option<()> {
    let mut h = [0.0; 8192];
    let n = lists::size(input)?;
    let h = lists::list(input, &mut h)?;
    let i = lists::size(input)?;
    lines::outcome(page, Ok(()), vector::row(n, h, i));
    Some(())
}
