// No code: the words for lists that the definitions of every crate share, and their laws.
#![tactic(auto)]
