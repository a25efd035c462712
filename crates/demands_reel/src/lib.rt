// A posted reel: what one room writes of a text, another reads back as that text, with no errors. Theorems, no code.
#![tactic(auto)]
