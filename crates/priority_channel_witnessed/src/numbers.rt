//! The numbers of the passes that are out.
ghost use Rattle.std.specs.Prelude.{◌≡◌, ◌+◌, ◌<◌, ◌∷◌, length, vec_len, slice_index_or, map, ◌++◌, IfOk, IfSome, IsPermutation};
ghost use Rattle.priority_channel_witnessed.specs.Passes.{AreGiven};

use crate::chronicle::Pass;
use priority_channel_recorded::chronicle::{Recording, wait_forever};
use std::alloc::{AllocError, Allocator};
use std::sync::Wait;

/// The numbers below `count`, with room for `parts` numbers.
#[tactic(auto, using(crate::proofs::Leaving::given_none, crate::proofs::Leaving::given_more))]
pub(crate) fn first_numbers<A: Allocator>(
    alloc: A,
    count: usize,
    parts: usize,
) -> Result<Vec<u64, A>, AllocError>
    ensures count { IfOk result (λ numbers. vec_len numbers ≡ count) }
    ensures given { IfOk result (λ numbers. AreGiven numbers.items count) }
{
    let mut numbers = Vec::with_capacity(alloc, parts)?;
    for number in 0..count {
        numbers.push(number as u64)?;
    }
    Ok(numbers)
}

// The position of the number.
fn place_of<A: Allocator>(numbers: &Vec<u64, A>, number: u64) -> Option<usize>
    ensures within { IfSome result (λ at. at < vec_len numbers.now) }
    ensures is { IfSome result (λ at. number ≡ slice_index_or numbers.now.items at number) }
{
    for at in 0..numbers.len() {
        if numbers[at] == number {
            return Some(at);
        }
    }
    None
}

/// Takes the number of a pass from those that are out. Each pass that is out has one of these
/// numbers, and no two have the same. No contract says so: given another number, it waits for ever.
#[tactic(auto, using(crate::proofs::Leaving::struck_at))]
pub(crate) fn strike<A: Allocator, R: Wait>(rt: &R, out: &mut Vec<u64, A>, number: u64)
    ensures struck { IsPermutation out.old.items (number ∷ out.new.items) }
    ensures count { vec_len out.new + 1 ≡ vec_len out.old }
{
    let at = await_place(rt, out, number);
    out.remove(at);
}

fn await_place<A: Allocator, R: Wait>(rt: &R, numbers: &Vec<u64, A>, number: u64) -> usize
    ensures within { result < vec_len numbers.now }
    ensures is { number ≡ slice_index_or numbers.now.items result number }
{
    let Some(at) = place_of(numbers, number) else {
        wait_forever(rt);
        unreachable!()
    };
    at
}

/// Takes the numbers of these passes from those that are out.
pub(crate) fn strike_all<T, P: Ord, W: Clone, J: Recording, A: Allocator, R: Wait>(
    rt: &R,
    out: &mut Vec<u64, A>,
    passes: &Vec<Pass<T, P, W, J>, A>,
)
    ensures struck { IsPermutation out.old.items
        (map (λ pass. pass.number) passes.now.items ++ out.new.items) }
{
    for at in 0..passes.len() {
        let pass = &passes[at];
        strike(rt, out, pass.number());
    }
}
