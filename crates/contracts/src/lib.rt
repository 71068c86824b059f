// What a contract says, as a thing to speak of: no code. SPEC, "How much each call says".
#![tactic(auto)]
