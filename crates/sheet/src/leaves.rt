// The cycles to allocate and the supplied costs.
use crate::report::{put_numbers, put_refusal};

fn put_allocation(out: &impl Print, mean: u64, variance: u64, assurance: u64) {
    put_numbers(out, b"# allocate", &[mean, variance, assurance]);
    match cycles::allocate(mean, variance, assurance) {
        Ok(allocated) => put_numbers(out, b"cycles", &[allocated]),
        Err(refused) => put_refusal(out, refused),
    }
}

// The sheet's, the ends of the ranges, and each number outside its range.
pub(crate) fn allocations(out: &impl Print) {
    put_allocation(out, 100, 100, 900);
    put_allocation(out, 100, 101, 900);
    put_allocation(out, 100, 100, 0);
    put_allocation(out, 1000000, 1, 500);
    put_allocation(out, 1, 0, 999);
    put_allocation(out, 1000000, 1000000000000, 0);
    put_allocation(out, 1, 1000000000000, 499);
    put_allocation(out, 1, 1000000000000, 500);
    put_allocation(out, 0, 100, 900);
    put_allocation(out, 1000001, 0, 0);
    put_allocation(out, 100, 1000000000001, 0);
    put_allocation(out, 100, 100, 1000);
    put_allocation(out, u64::MAX, u64::MAX, u64::MAX);
}

fn supply(out: &impl Print, model: u64) {
    put_numbers(out, b"# supplied", &[model]);
    let supplied = costs::supplied(model);
    if let Err(refused) = supplied {
        put_refusal(out, refused);
    }
    put_numbers(out, b"costs", &supplied.unwrap_or([0; 7]));
}

// The three models and those beside them; a refusal has seven zero costs.
pub(crate) fn costs(out: &impl Print) {
    for model in 0..5 {
        supply(out, model);
    }
}
