// Definitions and worked examples only: see specs/Fips180.antt.
#![tactic(auto)]
