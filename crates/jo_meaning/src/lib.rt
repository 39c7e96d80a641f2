//! What a script means, as a definition: the calls that it makes, the turns that it takes, its lines and its outcome.
#![tactic(auto)]
