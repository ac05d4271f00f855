// Every rate and term where the two ends round differently: no code, only facts about the definitions (specs/Pairs.antt).
#![tactic(auto)]
