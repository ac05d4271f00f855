// What is promised of each request, beside the demands: no code, only facts about the definitions (specs/Promises.antt).
#![tactic(auto)]
