// Layouts of fixed size as values. Nothing is compiled.
#![tactic(auto)]
