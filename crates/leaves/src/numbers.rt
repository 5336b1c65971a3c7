// The calls that come to a number. A list in brackets is its length and its numbers.
use crate::lists;
use stream::Reader;
use vectors::refusal::Refusal;
use vectors::vector;

// By the call's number.
pub fn call(number: u64, input: &mut Reader<'_>) -> Option<Result<f64, Refusal>> {
    match number {
        1 => root(input),
        2 => ratio(input),
        3 => dot(input),
        4 => norm(input),
        5 => weighted_dot(input),
        _ => None,
    }
}

// 1 root x
fn root(input: &mut Reader<'_>) -> Option<Result<f64, Refusal>> {
    let x = lists::word(input)?;
    Some(Ok(root::root(float::float_of(x))))
}

// 2 ratio f F m0 m
fn ratio(input: &mut Reader<'_>) -> Option<Result<f64, Refusal>> {
    let mut v = [0.0; 4];
    input.numbers(&mut v, 4)?;
    Some(Ok(kernels::reduction_ratio(v[0], v[1], v[2], v[3])))
}

// 3 dot n [a] [b]
fn dot(input: &mut Reader<'_>) -> Option<Result<f64, Refusal>> {
    let mut a = [0.0; 8192];
    let mut b = [0.0; 8192];
    let n = lists::size(input)?;
    let a = lists::list(input, &mut a)?;
    let b = lists::list(input, &mut b)?;
    Some(vector::dot(n, a, b))
}

// 4 norm n [a]
fn norm(input: &mut Reader<'_>) -> Option<Result<f64, Refusal>> {
    let mut a = [0.0; 8192];
    let n = lists::size(input)?;
    let a = lists::list(input, &mut a)?;
    Some(vector::norm(n, a))
}

// 5 weighted dot n [a] [H] [b]
fn weighted_dot(input: &mut Reader<'_>) -> Option<Result<f64, Refusal>> {
    let mut a = [0.0; 8192];
    let mut h = [0.0; 8192];
    let mut b = [0.0; 8192];
    let n = lists::size(input)?;
    let a = lists::list(input, &mut a)?;
    let h = lists::list(input, &mut h)?;
    let b = lists::list(input, &mut b)?;
    Some(vector::weighted_dot(n, a, h, b))
}
