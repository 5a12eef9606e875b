// Document 01 as definitions. No code: what a reader must believe stands in specs/ and only there.
#![tactic(auto)]
