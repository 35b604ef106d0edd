// Theory alone: demands 1 and 3 about the code, at the clause that the contracts of `client::handle`, `engine::report`
// and `back::go_back` state; and demands 1 to 3 as C sees them, at the contracts of the C face.
#![tactic(auto)]
