// The greatest estimate, and so the greatest label of a search: 4,095 legs of cost 65,535.
pub const LIMIT: u32 = 268_365_825;
