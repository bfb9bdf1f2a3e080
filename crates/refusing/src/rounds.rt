//! Rounds of a test, in which each request is refused in turn.
ghost use Rattle.std.specs.Prelude.{◌≡◌, ◌+◌, ◌<◌, ◌≤◌, true, false};

use crate::Refusing;
use std::alloc::Allocator;

// No test makes as many requests.
const MOST_ROUNDS: u64 = 1000;

/// Why rounds show nothing.
#[derive(Clone, Copy, Debug, PartialEq, Eq)]
pub enum Vacuous {
    /// Nothing was refused: not even the first round made a request.
    NoRequest,
    /// Each of very many rounds met its refusal, or named none.
    NoEnd,
}

/// The numbers of rounds, from 1 on. `Refusing::rounds` makes it.
///
/// A round is one turn of a loop: it passes its number to `refuse_nth`, and then makes its
/// requests. The first round whose refusal never comes is the last. An error stands in place of
/// round 2 where that was round 1, and in place of an end where a thousand rounds had none.
#[derive(Drop)]
#[must_use = "no round begins until its number is asked for"]
pub struct Rounds<'a, B: Allocator> {
    alloc: &'a Refusing<B>,
    // How many began. None once they have ended.
    begun: Option<u64>,
}

impl<'a, B: Allocator> Rounds<'a, B> {
    pub(crate) fn new(alloc: &'a Refusing<B>) -> Self
        ensures { result.begun ≡ Some 0 }
    {
        Rounds {
            alloc,
            begun: Some(0),
        }
    }
}

impl<B: Allocator> Iterator for Rounds<'_, B> {
    ghost use Rattle.std.specs.Iterator.{at_most};
    ghost use Rattle.refusing.specs.Rounds.{GivesRound, most_left};

    type Item = Result<u64, Vacuous>;

    ghost next_gives = { λ s round t. GivesRound s.begun round t.begun };

    ghost remaining = { λ s. at_most (most_left s.begun) };

    fn next(&mut self) -> Option<Result<u64, Vacuous>> {
        let begun = self.begun?;
        let round = round_after(begun, self.alloc.end_round());
        self.begun = match round {
            Some(Ok(n)) => Some(n),
            Some(Err(_)) | None => None,
        };
        round
    }
}

// The round after so many, of which the last met no refusal or met one.
fn round_after(begun: u64, met_none: bool) -> Option<Result<u64, Vacuous>>
    ensures first { begun ≡ 0 → result ≡ Some (Ok 1) }
    ensures next { met_none ≡ false → begun < MOST_ROUNDS → result ≡ Some (Ok (begun + 1)) }
    ensures ended { met_none ≡ true → 1 < begun → result ≡ None }
    ensures no_request { met_none ≡ true → begun ≡ 1 → result ≡ Some (Err Vacuous.NoRequest) }
    ensures no_end { met_none ≡ false → MOST_ROUNDS ≤ begun → result ≡ Some (Err Vacuous.NoEnd) }
{
    match (begun, met_none) {
        (0, _) => Some(Ok(1)),
        (1, true) => Some(Err(Vacuous::NoRequest)),
        (_, true) => None,
        (MOST_ROUNDS.., false) => Some(Err(Vacuous::NoEnd)),
        (_, false) => Some(Ok(begun + 1)),
    }
}
