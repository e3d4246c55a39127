// The three demands, as an auditor reads them: a statement for each sentence, on each face that a reader holds. It has no code.
#![tactic(auto)]
