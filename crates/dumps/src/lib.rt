// What a dump means: no function, only the definitions that the crates above promise.
#![tactic(auto)]
