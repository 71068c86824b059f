// The chunk tree as definitions, by levels and by RFC 6962's splits, and their laws. There is no code here.
#![tactic(auto)]
