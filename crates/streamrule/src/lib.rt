// The roots that a stream of chunks holds, as definitions, and their laws. There is no code here.
#![tactic(auto)]
