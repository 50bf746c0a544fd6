// The worked cases, from the sample layout to the searches on it.
#![tactic(auto)]

ghost use Rattle.std.specs.Prelude.{◌≡◌};
ghost use Rattle.cases.specs.Cases.{least_route, WorkedCases};
ghost use Rattle.cases.specs.Premises.{PremisesMet};

// The route of least cost in the six places.
fn cheapest() -> [u32; 4]
    ensures { result ≡ least_route }
{
    [0, 2, 4, 5]
}

// The route of least cost in the six places, and what every worked case comes to.
pub fn worked_cases() -> [u32; 4]
    ensures route { result ≡ least_route }
    ensures cases { WorkedCases }
{
    cheapest()
}

// The premises of the guarantee can be met: a run of calls on the six places does.
pub fn premises_met()
    ensures { PremisesMet }
{}
