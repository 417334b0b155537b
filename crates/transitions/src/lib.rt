// What C means: states, causally explained transitions and paths: no function.
#![tactic(auto)]
