// No code: the theorems about the definitions of the log.
#![tactic(auto)]
