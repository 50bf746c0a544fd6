ghost use Rattle.std.specs.Prelude.{◌≤◌};

use search_model::search::Search;

// A search that can be advanced. Its bound is valid: b is at most a.
#[derive(Drop)]
pub struct Running {
    pub(crate) state: Search,
    ghost bounded: { state.bound.b ≤ state.bound.a },
}
