//! The round of quoted_round_robin: whose turn it is, and how much of the quote is used.

ghost use Rattle.std.specs.Prelude.{◌≡◌};
ghost use Rattle.so_scene.specs.Rounds.{first_round, quote_of, has_left, next_lower, one_used, new_round, after_taking, TakesOne};

use so_ids::Priority;

/// The round of a quoted_round_robin dispatcher. Its events are taken priority by priority: of each, where it has
/// some, so many as its quote, and then of the next lower one that has some, with p7 after p0.
#[derive(Clone, Copy, PartialEq, Eq)]
pub struct Round {
    /// The priority whose turn it is.
    pub priority: Priority,
    /// How much of its quote is used.
    pub used: u32,
}

impl Round {
    /// The round at the beginning: p7, with nothing used.
    pub fn first() -> Round
        ensures { result ≡ first_round }
    {
        Round {
            priority: Priority { level: 7 },
            used: 0,
        }
    }

    /// The round after an event of a priority is taken: one more of the quote is used where it is the round's priority
    /// and there is some left, else one of a new quote. Where the priority is that to which the round was moved
    /// before, one more is used of the moved round.
    #[tactic(auto, using(crate::proofs::RoundLaws::takes_one))]
    pub fn after_taking(self, quotes: &[u32; 8], priority: Priority) -> Round
        ensures value { result ≡ after_taking quotes.now priority self }
        ensures one { TakesOne quotes.now self }
    {
        if priority.level == self.priority.level && self.has_left(quotes) {
            Round {
                priority: self.priority,
                used: self.used + 1,
            }
        } else {
            Round { priority, used: 1 }
        }
    }

    /// Tells whether the quote of the round's priority isn't used up.
    pub fn has_left(self, quotes: &[u32; 8]) -> bool
        ensures { result ≡ has_left quotes.now self }
    {
        self.used < quotes[self.priority.level as usize]
    }
}

/// The next lower priority, and p7 after p0.
pub fn next_lower(priority: Priority) -> Priority
    ensures { result ≡ next_lower priority }
{
    if priority.level == 0 {
        Priority { level: 7 }
    } else {
        Priority {
            level: priority.level - 1,
        }
    }
}
