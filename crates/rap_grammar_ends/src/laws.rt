//! A law of the floats of field accesses, as a function that does nothing and whose contract is the law.
ghost use Rattle.rap_grammar_ends.specs.Dots.{DotsAreSeen, DotsStandInNodes};

/// Where no node at the top of an output ends with a float that ends in a dot, the node of each such float stands in
/// another node.
pub fn dots_stand_in_nodes()
    ensures inside { DotsStandInNodes }
    ensures seen { DotsAreSeen }
{}
