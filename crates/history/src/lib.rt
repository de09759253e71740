// The history of an edit run: its definitions, and what holds of every run.
#![tactic(auto)]
