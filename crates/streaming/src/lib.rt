// Every sequence of calls on a stream, by value and under C names, as theorems about the calls' own contracts. There is no code here.
#![tactic(auto)]
