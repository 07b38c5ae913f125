// No function: texts in definitions, as the numbers of their characters.
#![tactic(auto)]
