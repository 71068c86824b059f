// The plain ledger, and the promise that the table of bays keeps against it: definitions and theorems. There is no code here.
#![tactic(auto)]
