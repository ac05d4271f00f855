// The figures of docs/METHOD.md: no code, only facts about the definitions (specs/Method.antt).
#![tactic(auto)]
