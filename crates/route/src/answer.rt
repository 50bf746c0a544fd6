// What the program says of a layout.
ghost use Rattle.std.specs.Prelude.{◌≡◌, Some};
ghost use Rattle.route.specs.Line.{line, outcome_line};

use crate::input::MOST;
use floors::floor::Floor;
use layout::intake;
use std::fmt;

// Refused by the number of a question and at a record, or accepted with so many places and legs.
// Stays: one `Display` prints both, and a `Result` can be given none.
#[derive(Clone, Copy)]
pub enum Outcome {
    Refused { number: u32, at: usize },
    Accepted { places: u32, legs: u32 },
}

impl fmt::Display for Outcome {
    ghost output = { λ a. Some (outcome_line a) };

    fn fmt<W: fmt::Write>(&self, f: &mut fmt::Formatter<W>) -> fmt::Result {
        match self {
            Outcome::Refused { number, at } => write!(f, "layout refused {number} at {at}"),
            Outcome::Accepted { places, legs } => {
                write!(f, "layout accepted places {places} legs {legs}")
            }
        }
    }
}

// The answer to a layout; one that is too long is refused 10 at 1024 before anything else is asked.
pub fn answer(layout: Vec<u8>) -> Outcome
    ensures { outcome_line result ≡ line layout.items }
{
    if layout.len() > MOST {
        return Outcome::Refused {
            number: 10,
            at: 1024,
        };
    }
    match intake(layout) {
        Ok(floor) => Outcome::Accepted {
            places: floor.places(),
            legs: floor.leg_records(),
        },
        Err(refused) => Outcome::Refused {
            number: refused.fault.number(),
            at: refused.fault.record(),
        },
    }
}

#[cfg(test)]
mod tests {
    use super::*;
    use std::alloc::Global;
    use std::test::Fail;

    // What is written of so many zero bytes.
    fn of_zeros(heap: Global, length: usize) -> Result<String, Fail> {
        let zeros = vec![in heap; 0u8; length]?;
        Ok(answer(zeros).to_string(heap)?)
    }

    #[test]
    fn longest_layout(rt: HostRuntime) -> Result<(), Fail> {
        let heap = rt.alloc();
        assert!(rt; of_zeros(heap, 16_384)?.as_str() == "layout refused 2 at 0");
        assert!(rt; of_zeros(heap, 16_385)?.as_str() == "layout refused 10 at 1024");
        assert!(rt; of_zeros(heap, 15)?.as_str() == "layout refused 1 at 0");
        Ok(())
    }
}
