// FIPS 198-1, HMAC, as definitions over bytes, and their laws. There is no code here.
#![tactic(auto)]
