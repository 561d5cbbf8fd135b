// 01, 'Worked circuits': facts about the rules, no code.
#![tactic(auto)]
