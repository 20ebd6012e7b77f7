// Text as bytes, as definitions and laws: all of it is in specs/.
#![tactic(auto)]
