// The promise of the ledger over the C names: definitions and theorems. There is no code here.
#![tactic(auto)]
