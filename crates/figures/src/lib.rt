// The figures of RULES.md, on both sides: what the page says and what the definitions give. It has no code.
#![tactic(auto)]
