// No code: the claim that nothing that looks disturbs, over every list of calls of the controller.
// specs/Strike.antt holds the statement.
#![tactic(auto)]
