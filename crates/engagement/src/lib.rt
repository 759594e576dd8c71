// The engagement rule and the AD request over every run of accepted events. Nothing is compiled.
#![tactic(auto)]
