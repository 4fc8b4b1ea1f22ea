// The theorems about the definition of the report. specs/ holds their statements, proofs/ their proofs; there is no code to run.
#![tactic(auto)]
