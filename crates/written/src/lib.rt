// Digest lists that were written by calls: definitions and theorems. There is no code here.
#![tactic(auto)]
