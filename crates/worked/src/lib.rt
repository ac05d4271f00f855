// The sheets, the listing and the books that are worked by hand: no code, only facts about the definitions (specs/).
#![tactic(auto)]
