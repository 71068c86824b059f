// Laws of the block rule over the width, which the block functions of 32 and of 64 bits share. There is no code here.
#![tactic(auto)]
